// A feed of a clock.
ghost use Rattle.std.specs.Prelude.{◌≡◌, ◌<◌, suc, [], All, Some, length, map, IfOk, IfSome, OnOk, OnErr};
ghost use Rattle.frame_core.specs.Calls.{Adds};
ghost use Rattle.frame_core.specs.Frames.{some_list};
ghost use Rattle.clock_outputs.specs.Feeds.{HasFeedRoom, HasGiven, HaveGiven, HaveGivenSome, unfed, fed};
ghost use Rattle.clock_outputs.specs.Segments.{segment_slots};

use frame_core::{Cell, Chunk, Frame, Gave, Taps};
use liq_base::Memory;
use std::alloc::Global;

/// A feed of a clock: its buffer, its node, and the cells of its node in the tick so far.
#[derive(Debug, Drop)]
pub struct FeedPort {
    pub buffer: u32,
    pub node: u32,
    pub frame: Frame,
}

impl FeedPort {
    // Begins a tick: the feed has no cells yet.
    fn begin(&mut self)
        ensures { self.new ≡ unfed self.old }
    {
        self.frame.clear();
    }

    /// Takes the slots of its node in a segment, which is an instant and a run of further ones: the slot of the first
    /// instant, and then cells of its title with these samples; or as many empty slots if the first is empty.
    pub fn hear(&mut self, slot: Option<Cell>, left: &[i16], right: &[i16])
        requires same { length right.now ≡ length left.now }
        requires room { HasFeedRoom (suc (length left.now)) self.old }
        ensures { self.new ≡ fed self.old (segment_slots slot (length left.now) left.now right.now) }
    {
        let Some(cell) = slot else {
            return;
        };
        self.frame
            .lay(&[cell.left], &[cell.right], cell.first, cell.title);
        self.frame.lay(left, right, false, cell.title);
    }
}

/// Begins a tick: no feed has cells yet.
pub fn begin_feeds(feeds: &mut Vec<FeedPort>)
    ensures { feeds.new.items ≡ map unfed feeds.old.items }
{
    for k in 0..feeds.len() {
        feeds[k].begin();
    }
}

// The chunk that a feed gave in this tick, with its node and its cells.
#[derive(Drop)]
struct Made<'a> {
    node: u32,
    frame: &'a Frame,
    chunk: Chunk,
    ghost is: { Some chunk ≡ some_list frame.now.cells },
}

/// At the end of a tick: gives the chunk of each feed that has cells to its buffer in `taps`, in their order. Where
/// memory is refused some of these gives were made, from the first on. Feeds that heard the same of one node share one
/// chunk.
pub fn give_all<T: Taps>(alloc: Global, feeds: &[FeedPort], taps: &mut T) -> Result<(), Memory>
    requires { All (λ feed. feed.buffer < T.buffers taps.old) feeds.now }
    ensures buffers { T.buffers taps.new ≡ T.buffers taps.old }
    ensures same { T.same taps.old taps.new }
    ensures given { OnOk result (HaveGiven T.stands feeds.now (length feeds.now) taps.old taps.new) }
    ensures stopped { OnErr result (HaveGivenSome T.stands feeds.now taps.old taps.new) }
    ensures feeds { OnErr result (0 < length feeds.now) }
{
    let mut made = Vec::new(alloc);
    give_each(alloc, feeds, &mut made, taps)
}

// Gives the chunk of each feed that has cells to its buffer, in their order. `made` has the chunks of the feeds before;
// a later feed of the same node gives such a chunk again.
fn give_each<'a, T: Taps>(
    alloc: Global,
    feeds: &'a [FeedPort],
    made: &mut Vec<Made<'a>>,
    taps: &mut T,
) -> Result<(), Memory>
    requires { All (λ feed. feed.buffer < T.buffers taps.old) feeds.now }
    ensures buffers { T.buffers taps.new ≡ T.buffers taps.old }
    ensures same { T.same taps.old taps.new }
    ensures given { OnOk result (HaveGiven T.stands feeds.now (length feeds.now) taps.old taps.new) }
    ensures stopped { OnErr result (HaveGivenSome T.stands feeds.now taps.old taps.new) }
    ensures feeds { OnErr result (0 < length feeds.now) }
{
    for k in 0..feeds.len() {
        give_one(alloc, &feeds[k], made, taps)?;
    }
    Ok(())
}

// Gives the chunk of a feed to its buffer, if the feed has cells. `made` has the chunks of the feeds before, and gets a
// new one. Where memory is refused, this feed has given nothing.
fn give_one<'a, T: Taps>(
    alloc: Global,
    feed: &'a FeedPort,
    made: &mut Vec<Made<'a>>,
    taps: &mut T,
) -> Result<(), Memory>
    requires { feed.now.buffer < T.buffers taps.old }
    ensures buffers { T.buffers taps.new ≡ T.buffers taps.old }
    ensures same { T.same taps.old taps.new }
    ensures given { OnOk result (HasGiven T.stands feed.now taps.old taps.new) }
    ensures none { OnErr result (Adds T.stands taps.old taps.new []) }
{
    let Some(chunk) = chunk_of_feed(alloc, feed, made)? else {
        return Ok(());
    };
    match taps.give(feed.buffer, chunk) {
        Ok(gave) => {
            drop::<Gave>(gave);
            Ok(())
        }
        Err((chunk, refused)) => {
            drop::<Chunk>(chunk);
            Err(refused)
        }
    }
}

// The chunk of a feed, or `None` if it has no cells: a share of that of an earlier feed of its node with the same
// cells, or of a new one, which is added to `made` for later feeds.
fn chunk_of_feed<'a>(
    alloc: Global,
    feed: &'a FeedPort,
    made: &mut Vec<Made<'a>>,
) -> Result<Option<Chunk>, Memory>
    ensures cells { IfOk result (λ chunk. chunk ≡ some_list feed.now.frame.cells) }
{
    if let Some(chunk) = shared_chunk(made, feed)? {
        return Ok(Some(chunk));
    }
    let Some(chunk) = Chunk::from_frame(alloc, &feed.frame)? else {
        return Ok(None);
    };
    let again = chunk.share()?;
    made.push(Made {
        node: feed.node,
        frame: &feed.frame,
        chunk,
    })?;
    Ok(Some(again))
}

// A share of the chunk in `made` that an earlier feed of the same node made of the same cells; `None` if there is none.
// The error is want of memory for the share.
fn shared_chunk(made: &[Made<'_>], feed: &FeedPort) -> Result<Option<Chunk>, Memory>
    ensures { IfOk result (λ found. IfSome found (λ chunk. Some chunk ≡ some_list feed.now.frame.cells)) }
{
    for k in 0..made.len() {
        let one = &made[k];
        if one.node == feed.node && one.frame.is_same(&feed.frame) {
            return Ok(Some(one.chunk.share()?));
        }
    }
    Ok(None)
}
