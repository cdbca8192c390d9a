// The answers of a buffer, window by window.
use std::marker::Model;

/// The answers of one window, in order: of the puts, true for an accepted chunk, and of the takes, true for a chunk
/// that was got.
#[derive(Debug, Drop)]
pub struct WindowLog {
    pub puts: Vec<bool>,
    pub takes: Vec<bool>,
}

impl Model for WindowLog {
    ghost use Rattle.buffer_ends.specs.Local.{Answers, answers_coded};

    ghost Value = { Answers };

    ghost coded = { answers_coded };

    ghost view = { λ log. record { puts = log.puts.items; takes = log.takes.items } };
}

/// The windows of one buffer, in order.
#[derive(Debug, Drop)]
pub struct BufferLog {
    pub windows: Vec<WindowLog>,
}

impl Model for BufferLog {
    ghost use Rattle.std.specs.Prelude.{List};
    ghost use Rattle.buffer_ends.specs.Local.{Answers, answers_coded};
    ghost use Rattle.std.specs.Coded.{coded_list};

    ghost Value = { List Answers };

    ghost coded = { coded_list answers_coded };

    ghost view = { λ log. log.windows.items };
}
