// What follows from the definitions of the builtin calls, for whoever evaluates by them. A caller that needs a law
// calls its function, which does nothing.
ghost use Rattle.std.specs.Prelude.{◌≡◌, ℕ, List, Ok};
ghost use Rattle.liq_base.specs.declared.memory.Kind.{Kind};
ghost use Rattle.typing_rules.specs.declared.uses.Builtin.{Builtin};
ghost use Rattle.script_values.specs.declared.machine.Machine.{Machine};
ghost use Rattle.script_values.specs.Machines.{count_work, first_machine};
ghost use Rattle.script_values.specs.Slots.{Argument};
ghost use Rattle.script_values.specs.Values.{Value};
ghost use Rattle.builtin_calls.specs.Builtins.{builtin};
ghost use Rattle.builtin_calls.specs.Sound.{IsSound, Keeps};

/// A law: along calls of builtins and counted work the plan of an evaluation stays well formed, and each node keeps its
/// number.
pub fn calls_keep_plans()
    ensures first { IsSound first_machine }
    ensures counting { (n : ℕ) (m c : Machine) → count_work n m ≡ Ok c → Keeps m c }
    ensures call { (b : Builtin) (at : ℕ) (kinds : List Kind) (given : List Argument) (m : Machine) (x : Value
        × Machine)
        → builtin b at kinds given m ≡ Ok x → Keeps m x.1 }
{}
