// What stands in a trace.
ghost use Rattle.std.specs.Prelude.{◌≡◌};

use buffer_ends::BufferLog;
use trace_log::Trace;

/// What a trace tells of each buffer: its answers, window by window.
pub fn logs_of(trace: &Trace) -> &[BufferLog]
    ensures { result.now ≡ trace.now.buffers }
{
    &trace.buffers
}
