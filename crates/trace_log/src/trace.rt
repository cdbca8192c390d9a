// What the buffers of a run answered.
use buffer_ends::BufferLog;
use std::marker::Model;

/// What the buffers of a run answered: its ticks, the ticks of a window, and the windows of each buffer.
#[derive(Debug, Drop)]
pub struct Trace {
    /// At most 10^9 in a text.
    pub ticks: u64,
    /// From 1 to 10^6 in a text.
    pub window: u64,
    /// One log for each buffer of the plan, at most 4096 in a text.
    pub buffers: Vec<BufferLog>,
}

impl Model for Trace {
    ghost use Rattle.trace_log.specs.Values.{TraceValue, trace_coded};

    ghost Value = { TraceValue };

    ghost coded = { trace_coded };

    ghost view = { λ trace. record { ticks = trace.ticks; window = trace.window; buffers = trace.buffers.items } };
}
