// Whether the types of a text clash.
ghost use Rattle.std.specs.Prelude.{◌≡◌, ◌≢◌, IfOk};
ghost use Rattle.script_plan.specs.declared.fault.ScriptFault.TheVariants as fault;
ghost use Rattle.where_lines.specs.Clashes.{Clashes, is_clash_fault, is_type_clash};

use liq_base::Memory;
use script_plan::{ScriptFault, plan_of};
use std::alloc::Global;
use typing_rules::TypeFault;

/// Whether a script has no plan because its types clash. Any other fault of it counts as no clash.
pub fn clashes(alloc: Global, text: &[u8]) -> Result<bool, Memory>
    ensures { IfOk result (Clashes text.now) }
{
    match plan_of(alloc, text) {
        Ok(_) => Ok(false),
        Err(fault) => of_fault(&fault),
    }
}

// Whether the fault of a script is a clash of types. Want of memory tells nothing of the script, and is the error.
fn of_fault(told: &ScriptFault) -> Result<bool, Memory>
    ensures { IfOk result (λ is. (told.now ≢ fault.Memory) × (is ≡ is_clash_fault told.now)) }
{
    match told {
        ScriptFault::Lex(_) => Ok(false),
        ScriptFault::Parse(_) => Ok(false),
        ScriptFault::Type(inner) => Ok(is_type_clash(inner)),
        ScriptFault::Eval(_) => Ok(false),
        ScriptFault::Memory => Err(Memory),
    }
}

// Whether a fault of typing is a clash of types, and not one of names or arguments.
fn is_type_clash(fault: &TypeFault) -> bool
    ensures { result ≡ is_type_clash fault.now }
{
    match fault {
        TypeFault::TypeClash { .. } => true,
        _ => false,
    }
}
