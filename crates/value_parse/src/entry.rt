// Where reading begins: values may stand in one another as deep as there are tokens.
ghost use Rattle.std.specs.Prelude.{◌≡◌, ◌<◌, ◌≤◌, ◌^◌, IfOk, length};
ghost use Rattle.script_grammar.specs.ReadValue.{full_by, call as read_call, choice as read_choice};
ghost use Rattle.script_grammar.specs.ReadScript.{value as read_value, result as read_result};
ghost use Rattle.script_grammar.specs.View.{view_full, view_expr, view_call, view_if};
ghost use Rattle.script_grammar.specs.Whole.{IsWholeFull, IsWholeExpr, IsWholeCall, IsWholeIf};
ghost use Rattle.parse_base.specs.Gives.{kinds, Gives, places, Reads};

use crate::at::At;
use crate::{arguments, conditionals, logic, values};
use parse_base::Fault;
use script_grammar::tree::{Call, Expr, Full, If};
use script_lex::Token;
use std::alloc::Global;

/// The value that the tokens begin with, and the tokens behind it. Where it is loose, a `(` may stand behind it, so
/// that `%wav` takes its option only if `(samplesize =` stands there. The tokens are the last of `total`, and the
/// tree's fields `at` are indices among all of these. Calls nest as deep as the value does.
///
/// A fault counts the tokens from the first one that cannot go on. `Fault::Memory` where memory was refused.
#[tactic(auto, unfolding(script_grammar::specs::ReadScript::value))]
pub fn value(
    alloc: Global,
    total: usize,
    loose: bool,
    tokens: &[Token],
) -> Result<(Full, &[Token]), Fault>
    requires within { length tokens.now ≤ total }
    requires small { total < 2 ^ 32 }
    ensures { Reads view_full IsWholeFull (read_value loose (places total)) tokens.now result }
{
    values::full_step(At {
        alloc,
        total,
        levels: tokens.len(),
        loose,
        tokens,
    })
}

/// Reads the result of a def, an expression: its tree, and the tokens behind it. The tokens are the last of `total`,
/// and the fields `at` of the tree are indices among all of these. A fault counts the tokens from the first one that
/// cannot go on.
#[tactic(auto, unfolding(script_grammar::specs::ReadScript::result))]
pub fn result(alloc: Global, total: usize, tokens: &[Token]) -> Result<(Expr, &[Token]), Fault>
    requires within { length tokens.now ≤ total }
    requires small { total < 2 ^ 32 }
    ensures { Reads view_expr IsWholeExpr (read_result (places total)) tokens.now result }
{
    logic::expr(At {
        alloc,
        total,
        levels: tokens.len(),
        loose: false,
        tokens,
    })
}

/// Reads a call of a name: its tree, and the tokens behind it. The tokens are the last of `total`, and the fields `at`
/// of the tree are indices among all of these. A fault counts the tokens from the first one that cannot go on.
pub fn call(alloc: Global, total: usize, tokens: &[Token]) -> Result<(Call, &[Token]), Fault>
    requires within { length tokens.now ≤ total }
    requires small { total < 2 ^ 32 }
    ensures { Reads view_call IsWholeCall (read_call (places total) (full_by (length tokens.now) (places total)))
        tokens.now result }
{
    arguments::call(alloc, total, tokens.len(), tokens)
}

/// Reads an `if`: its tree, and the tokens behind its `end`. The tokens are the last of `total`, and the fields `at` of
/// the tree are indices among all of these. A fault counts the tokens from the first one that cannot go on.
pub fn choice(alloc: Global, total: usize, tokens: &[Token]) -> Result<(If, &[Token]), Fault>
    requires within { length tokens.now ≤ total }
    requires small { total < 2 ^ 32 }
    ensures { Reads view_if IsWholeIf (read_choice (places total) (full_by (length tokens.now) (places total)))
        tokens.now result }
{
    conditionals::choice(alloc, total, tokens.len(), tokens)
}
