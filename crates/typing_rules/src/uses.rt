// The uses of the names of a script.

use crate::use_kinds::UseKinds;
use liq_base::Kind;

/// What the name at token `at` stands for, and the kinds that its use fixes.
#[derive(Drop)]
pub struct Use {
    pub at: u32,
    pub target: Target,
    pub kinds: UseKinds,
}

/// A binding or a def by the token of the name that it binds, or a builtin.
#[derive(Clone, Copy, Debug, PartialEq, Eq)]
pub enum Target {
    Slot(u32),
    Def(u32),
    Builtin(Builtin),
}

/// A kind, or an open kind of the def around the use, by its number among them.
#[derive(Clone, Copy, Debug, PartialEq, Eq)]
pub enum KindOf {
    Fixed(Kind),
    Given(u64),
}

/// The builtin calls.
#[derive(Clone, Copy, Debug, PartialEq, Eq)]
pub enum Builtin {
    OutputFile,
    Set,
    Single,
    Playlist,
    Blank,
    Square,
    Fail,
    Fallback,
    Switch,
    Sequence,
    Rotate,
    Random,
    Add,
    Amplify,
    Mean,
    Stereo,
    Crossfade,
    Mksafe,
    Buffer,
    Clock,
}
