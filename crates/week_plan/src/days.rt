// Whether each day of the week is like the others.
ghost use Rattle.std.specs.Prelude.{◌≡◌, ◌↔◌, true};
ghost use Rattle.week_plan.specs.Spans.{IsDaily};
ghost use Rattle.week_plan.specs.Tables.{IsTable, is_told};

/// The minutes of a day.
const DAY: usize = 1440;

/// Whether a table of the week, with a word of 60 seconds for each minute, is the same on each day.
pub fn is_daily(words: &[u64]) -> bool
    requires { IsTable words.now }
    ensures { (result ≡ true) ↔ IsDaily (is_told words.now) }
{
    for k in 0..6 * DAY {
        if words[k] != words[k + DAY] {
            return false;
        }
    }
    true
}
