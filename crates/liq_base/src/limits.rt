// The limits of the language and of one run, each with its unit.

/// A script's bytes.
pub const MAX_SCRIPT_BYTES: u64 = 1_048_576;

/// Brackets, `if` and `def` that are open at one token.
pub const MAX_NESTING: u32 = 200;

/// What the evaluation of a script may cost; one more is too much.
pub const MAX_WORK: u32 = 999_999;

/// Calls of defs that run at one time.
pub const MAX_CALLS: u32 = 16;

/// The least rate of a script, in samples a second.
pub const MIN_RATE: u32 = 8000;

/// The greatest rate of a script, in samples a second.
pub const MAX_RATE: u32 = 192_000;

/// Samples of a tick.
pub const MAX_FRAME: u32 = 65_536;

/// Nodes of a plan.
pub const MAX_NODES: u32 = 4096;

/// Outputs of a script.
pub const MAX_OUTPUTS: u32 = 64;

/// Children of a node.
pub const MAX_CHILDREN: u32 = 65_535;

/// Crossfades on a path down through children.
pub const MAX_CROSSFADES: u32 = 4;

/// An overlap of a crossfade, in samples.
pub const MAX_OVERLAP: u32 = 4_194_304;

/// The prefill of a buffer, in samples.
pub const MAX_PREFILL: u32 = 4_194_304;

/// Chunks that a buffer holds.
pub const MAX_CAPACITY: u32 = 65_536;

/// Bytes of one audio file.
pub const MAX_FILE_BYTES: u64 = 268_435_456;

/// Bytes of a list of file names.
pub const MAX_LIST_BYTES: u64 = 1_048_576;

/// Bytes of all audio files of a script.
pub const MAX_ALL_BYTES: u64 = 4_294_967_296;

/// Bytes of the header before the samples of an output.
pub const HEADER_BYTES: usize = 44;

/// Clocks that run.
pub const MAX_CLOCKS: u32 = 64;
