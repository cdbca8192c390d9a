// What names mean, by a table of their tokens.
ghost use Rattle.std.specs.Prelude.{◌≡◌, ◌<◌, ℕ, IfOk, OnOk, get_or, length, map};
ghost use Rattle.name_scope.specs.Noted.{resolved};
ghost use Rattle.typing_rules.specs.Scoping.{target_in};
ghost use Rattle.expression_types.specs.Tables.{targets_of};

use liq_base::{Memory, TokenTable};
use name_scope::Resolved;
use std::alloc::Global;
use typing_rules::Target;

/// A table of what names mean, by their tokens. Where two names stand at one token the first one counts: the table is
/// filled from the last name on, and an earlier one overwrites a later one.
pub fn target_table(alloc: Global, names: &[Resolved]) -> Result<TokenTable<Target>, Memory>
    ensures { IfOk result (λ m. targets_of m ≡ target_in (map resolved names.now)) }
{
    let mut table = TokenTable::new(alloc);
    let mut left = names.len();
    while left > 0 {
        left -= 1;
        let name = name_at(names, left);
        table.put(name.at, name.target)?;
    }
    Ok(table)
}

/// Name number `i` of those that were resolved, with its token and what it means.
fn name_at(names: &[Resolved], i: usize) -> Resolved
    requires inside { i < length names.now }
    ensures at { result ≡ get_or names.now i result }
{
    names[i]
}
