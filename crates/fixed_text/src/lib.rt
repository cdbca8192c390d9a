//! Numbers and times as texts, each exactly: `docs/language.md` has the rules.
#![tactic(auto)]

mod decimal;
mod digits;
mod integer;
mod time_mark;
mod week;

pub use decimal::{Decimal, read_decimal};
pub use digits::{are_digits, value_up_to};
pub use integer::{read_u64, write_i64, write_u64};
pub use time_mark::TimeMark;
pub use week::{WeekSecond, read_start};
