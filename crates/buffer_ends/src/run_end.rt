// How a run over all clocks ended.
use crate::counts::Counts;
use crate::logs::BufferLog;

/// The answers of a run, by buffer, and how it ended.
#[derive(Debug, Drop)]
pub struct RunEnd {
    pub counts: Vec<Counts>,
    pub logs: Vec<BufferLog>,
    pub end: End,
}

/// How a run ended: all ticks were made, this sink of this clock refused bytes, or memory was refused.
#[derive(Clone, Copy, Debug, PartialEq, Eq)]
pub enum End {
    Done,
    Write { clock: u32, sink: u32 },
    Memory,
}
