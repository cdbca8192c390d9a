// The beginning of a call.
ghost use Rattle.std.specs.Prelude.{◌≡◌, length, IfOk};
ghost use Rattle.type_steps.specs.Flow.{Defines};
ghost use Rattle.type_instances.specs.Instances.{Instantiates, instance_params};
ghost use Rattle.type_instances.specs.Schemes.{IsSchemeOver, open_numbers};
ghost use Rattle.type_terms.specs.Table.{IsOver};
ghost use Rattle.type_terms.specs.Term.{term_of};
ghost use Rattle.expression_types.specs.Seen.{HasBegun, called_scheme, founds};

use crate::environment::FoundUse;
use crate::leaves::push_use;
use liq_base::Memory;
use std::alloc::Global;
use type_instances::{General, Instance, instantiate, instantiate_builtin};
use type_steps::new_type;
use type_terms::{KindTerm, Subst, Ty};
use typing_rules::{Builtin, Target};

/// What a call calls: a builtin, or a def by its general type.
#[derive(Clone, Copy)]
pub enum Called<'g> {
    Builtin(Builtin),
    General(&'g General),
}

/// What is called: the types of its parameters, and the number of the type variable that is its result's type.
#[derive(Drop)]
pub struct Callee {
    pub params: Vec<Ty>,
    pub result: u64,
}

/// Begins the typing of a call: makes an instance of the type of `called`, with new variables in place of its own, and
/// answers the types of its parameters and of its result. To `uses` it adds the use of the called name, which stands
/// at token `at` and means `target`.
pub fn begin_call(
    alloc: Global,
    subst: &mut Subst,
    uses: &mut Vec<FoundUse>,
    at: u32,
    target: Target,
    called: Called<'_>,
) -> Result<Callee, Memory>
    requires over { IsSchemeOver subst.old (called_scheme called) }
    ensures { IfOk result (λ c. HasBegun subst.old subst.new (called_scheme called.entry) at target c
        (founds uses.old.items) (founds uses.new.items)) }
{
    let instance = instance_of(alloc, subst, called)?;
    let (callee, kinds) = callee_of(alloc, subst, instance)?;
    push_use(uses, at, target, kinds)?;
    Ok(callee)
}

/// An instance of the type of what is called: its general type, with new variables of `subst` in place of its own, so
/// that each call may have types of its own.
fn instance_of(alloc: Global, subst: &mut Subst, called: Called<'_>) -> Result<Instance, Memory>
    requires over { IsSchemeOver subst.old (called_scheme called) }
    ensures instance { IfOk result
        (λ i. Instantiates subst.old subst.new (called_scheme called.entry) (instance_params i) (term_of i.result)
        i.kinds.items) }
    ensures counted { IfOk result (λ i. length i.kinds.items
        ≡ length (open_numbers 0 (called_scheme called.entry).kinds)) }
{
    match called {
        Called::Builtin(builtin) => instantiate_builtin(alloc, subst, builtin),
        Called::General(general) => instantiate(alloc, subst, general),
    }
}

/// Takes an instance of a type apart for a call: the types of its parameters with a new type variable bound to its
/// result, and beside them the kinds of sources (mono, stereo or a variable) that stand for the open ones.
fn callee_of(
    alloc: Global,
    subst: &mut Subst,
    instance: Instance,
) -> Result<(Callee, Vec<KindTerm>), Memory>
    requires over { IsOver subst.old (term_of instance.result) }
    ensures { IfOk result (λ p. (p.0.params ≡ instance.params) × (p.1 ≡ instance.kinds)
        × Defines subst.old subst.new p.0.result (term_of instance.result)) }
{
    let result = new_type(subst, instance.result)?;
    Ok((
        Callee {
            params: instance.params,
            result,
        },
        instance.kinds,
    ))
}
