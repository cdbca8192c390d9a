// What a node does, sorted.
ghost use Rattle.std.specs.Prelude.{◌≡◌};
ghost use Rattle.std.specs.Option.{option_map_or};
ghost use Rattle.std.specs.Prelude.{slice_get};
ghost use Rattle.stream_meaning.specs.Operators.{work_of};
ghost use Rattle.node_states.specs.Works.{IsTask};

use liq_base::Kind;
use op_leaf::Leaf;
use op_mix::Mixer;
use op_select::Rule;
use op_turn::Turn;
use plan_core::{Node, Op, Plan};

/// What a node does: it plays, picks among its children by a rule or by turns, mixes them, fades its child's tracks or
/// reads a buffer. The number is a crossfade's overlap in cells, or that of the buffer.
#[derive(Clone, Copy, Debug)]
pub enum Task {
    Play(Leaf),
    Pick(Rule),
    Turn(Turn),
    Mix(Mixer),
    Fade(u32),
    Read(u32),
}

/// Sorts what node `i` does by the code that does it, in a plan of `rate` samples a second.
/// A node of `clock` is a mixer that passes its child on.
/// The predicates of a switch are left out: they are asked at each instant which of its children may be chosen.
pub fn task_of(node: &Node, i: u32, rate: u32) -> Task
    ensures { IsTask result (work_of rate i node.now.kind node.now.op) }
{
    match &node.op {
        Op::Single(_) => Task::Play(files(i, true, node.kind)),
        Op::Playlist { again, .. } => Task::Play(files(i, *again, node.kind)),
        Op::Blank { track } => Task::Play(Leaf::Blank { track: *track }),
        Op::Square { pitch } => Task::Play(Leaf::Square {
            pitch: *pitch,
            rate,
            kind: node.kind,
        }),
        Op::Fail => Task::Play(Leaf::Never),
        Op::Fallback { sensitive } | Op::Switch { sensitive, .. } => Task::Pick(Rule::First {
            sensitive: *sensitive,
        }),
        Op::Sequence => Task::Pick(Rule::Turns),
        Op::Rotate => Task::Turn(Turn::Rotate),
        Op::Random { seed } => Task::Turn(Turn::Random { seed: *seed }),
        Op::Add { normalize } => Task::Mix(Mixer::Adds {
            normalize: *normalize,
        }),
        Op::Amplify { factor } => Task::Mix(Mixer::Scales { factor: *factor }),
        Op::Mean => Task::Mix(Mixer::Halves),
        Op::Stereo => Task::Mix(Mixer::Doubles),
        Op::Crossfade { overlap } => Task::Fade(*overlap),
        Op::Buffer(buffer) => Task::Read(*buffer),
        Op::Clock(_) => Task::Mix(Mixer::Passes),
    }
}

// A leaf that plays the audio files of this node, one or a list; `again` says whether the first one follows the last.
fn files(node: u32, again: bool, kind: Kind) -> Leaf
    ensures { result ≡ Leaf.Files node again kind }
{
    Leaf::Files { node, again, kind }
}

/// How many samples the reader of a buffer holds before it plays; 0 where there is no such buffer.
pub fn prefill_of(plan: &Plan, buffer: u32) -> u64
    ensures { result ≡ option_map_or (λ plan. plan.pre) (slice_get plan.now.buffers buffer) 0 }
{
    match plan.buffers.as_slice().get(buffer as usize) {
        Some(plan) => plan.pre,
        None => 0,
    }
}
