// The lines of cases that never come.
ghost use Rattle.std.specs.Prelude.{◌≡◌, ◌<◌, ◌^◌, ◌++◌, OnOk};
ghost use Rattle.week_lines.specs.Weeks.{case_text, fate_text, fates_text};

use crate::lines::{push_number, push_switch};
use liq_base::Memory;
use week_plan::{Fate, push_plain};

/// Appends a line for each case of switch `number` that is never chosen, and why; `fates` has what becomes of each
/// case.
pub fn push_cases(into: &mut Vec<u8>, number: usize, fates: &[Fate]) -> Result<(), Memory>
    ensures { OnOk result (into.new.items ≡ into.old.items ++ fates_text number 0 fates.now) }
{
    for (case, fate) in fates.iter().enumerate() {
        push_case(into, number, case, *fate)?;
    }
    Ok(())
}

// Appends the line of case `case`, counted from 0, of switch `number`, if it is never chosen: an earlier case hides it
// (`Hidden`), or it never holds (`Never`). Nothing is appended if it may be chosen.
fn push_case(into: &mut Vec<u8>, number: usize, case: usize, fate: Fate) -> Result<(), Memory>
    requires { case < 2 ^ 63 }
    ensures { OnOk result (into.new.items ≡ into.old.items ++ fate_text number case fate) }
{
    match fate {
        Fate::Chosen => Ok(()),
        Fate::Hidden => {
            push_case_number(into, number, case)?;
            push_plain(
                into,
                b" is never chosen: where it holds, an earlier case does that always plays\n",
            )
        }
        Fate::Never => {
            push_case_number(into, number, case)?;
            push_plain(into, b" never holds\n")
        }
    }
}

// Appends how a line about a case of a switch begins: the numbers of both. Cases are counted from 1 there.
fn push_case_number(into: &mut Vec<u8>, number: usize, case: usize) -> Result<(), Memory>
    requires { case < 2 ^ 63 }
    ensures { OnOk result (into.new.items ≡ into.old.items ++ case_text number case) }
{
    push_switch(into, number)?;
    push_number(into, b"case ", case as u64 + 1)
}
