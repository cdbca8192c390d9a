// The parameters of the builtins.
ghost use Rattle.std.specs.Prelude.{◌≡◌, map};
ghost use Rattle.typing_rules.specs.Table.{params_of_builtin};
ghost use Rattle.name_scope.specs.Seen.{seen_parameter};

use typing_rules::{Builtin, Parameter, builtin_row};

/// The parameters of a builtin, in the order of its row in the table of builtins.
pub fn builtin_params(builtin: Builtin) -> &'static [Parameter<'static>]
    ensures same { map seen_parameter result.now ≡ params_of_builtin builtin }
{
    builtin_row(builtin).params
}
