// What a loop has read.
ghost use Rattle.std.specs.Prelude.{◌≡◌, ◌++◌, ◌∷◌, [], IfOk, IfErr};
ghost use Rattle.std.specs.Result.{IsOkAnd};
ghost use Rattle.value_parse.specs.Operand.{IsFaultOf};

use parse_base::Fault;
use script_lex::Token;

/// Pushes the item that a loop has just read (`read`) behind the others, and answers the tokens behind it; a fault is
/// handed on. Room is made before the item is taken: a push that may be refused hands its item back, and so copies it
/// twice more.
#[inline(never)]
pub fn keep<'a, T: Drop>(
    items: &mut Vec<T>,
    read: Result<(T, &'a [Token]), Fault>,
) -> Result<&'a [Token], Fault>
    ensures kept { IfOk result (λ rest. IsOkAnd read.entry (λ x. (x.1.now ≡ rest.now)
        × (items.new.items ≡ items.old.items ++ x.0 ∷ []))) }
    ensures fault { IfErr result (λ e. IsFaultOf read.entry e) }
{
    items.reserve(1)?;
    let (item, rest) = read?;
    items.push_reserved(item);
    Ok(rest)
}
