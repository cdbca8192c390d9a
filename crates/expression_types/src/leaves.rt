// Expressions without parts.
ghost use Rattle.std.specs.Prelude.{◌≡◌, IfOk, OnOk};
ghost use Rattle.script_grammar.specs.Tree.{Named};
ghost use Rattle.type_steps.specs.Environment.{with_use};
ghost use Rattle.type_steps.specs.Flow.{Defines, IsTypeOf, if_yes};
ghost use Rattle.expression_types.specs.Literals.{literal_term};
ghost use Rattle.expression_types.specs.Seen.{IsNamed, IsSeen, env_of, founds};

use crate::environment::{FoundUse, Names};
use liq_base::{Memory, Text};
use script_grammar::tree::Literal;
use std::alloc::Global;
use type_steps::new_type;
use type_terms::{KindTerm, Subst, Ty};
use typing_rules::Target;

/// The answer of typing behind a check: type variable `n` if the check holds (`yes`), and otherwise `None`, no type.
pub fn some_if(yes: bool, n: u64) -> Option<u64>
    ensures { result ≡ if_yes yes n }
{
    if yes { Some(n) } else { None }
}

/// The number of a new type variable that is bound to the type of a literal: int or decimal.
pub fn literal_type(alloc: Global, subst: &mut Subst, literal: &Literal) -> Result<u64, Memory>
    ensures { IfOk result (λ n. Defines subst.old subst.new n (literal_term literal.now)) }
{
    match literal {
        Literal::Int(_) => new_type(subst, Ty::Int),
        Literal::Number(_) => new_type(subst, Ty::Decimal),
    }
}

/// Adds the use of a name that stands at token `at` to the list of uses: what it means (`target`), and the kinds of
/// sources (mono, stereo or a variable) that its open kinds have there. Where memory runs out nothing is added.
pub fn push_use(
    uses: &mut Vec<FoundUse>,
    at: u32,
    target: Target,
    kinds: Vec<KindTerm>,
) -> Result<(), Memory>
    ensures { OnOk result (founds uses.new.items ≡ with_use (founds uses.old.items) at target kinds.items) }
{
    uses.reserve(1)?;
    uses.push_reserved(FoundUse { at, target, kinds });
    Ok(())
}

/// The type of a name outside a call, which stands at token `at`: the number of its binding's type variable; `None`
/// where `names` tells of no binding for that token. Its use is added to `uses`; it has no open kinds. Only the
/// contract reads `name`.
pub fn type_name(
    alloc: Global,
    subst: &mut Subst,
    names: Names<'_, '_>,
    uses: &mut Vec<FoundUse>,
    at: u32,
    name: &Text,
) -> Result<Option<u64>, Memory>
    requires seen { IsSeen subst.old names uses.old.items }
    ensures typed { IfOk result
        (λ r. IsTypeOf subst.old subst.new (env_of names.entry) (Named at name.now) (founds uses.old.items)
        (founds uses.new.items) r) }
    ensures named { IfOk result
        (λ r. IsNamed (env_of names.entry) at (founds uses.old.items) (founds uses.new.items) r) }
{
    match names.target(at) {
        None => Ok(None),
        Some(target) => match target {
            Target::Slot(binding) => match names.value(binding) {
                None => Ok(None),
                Some(n) => {
                    push_use(uses, at, Target::Slot(binding), Vec::new(alloc))?;
                    Ok(Some(n))
                }
            },
            Target::Def(_) => Ok(None),
            Target::Builtin(_) => Ok(None),
        },
    }
}
