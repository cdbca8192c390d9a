// The builtins, one row for each. Names, parameters and types of a call are read here and nowhere else.
ghost use Rattle.std.specs.Prelude.{◌≡◌, map};
ghost use Rattle.std.specs.Str.{bytes_eq};
ghost use Rattle.typing_rules.specs.Rows.{row_term, seen_parameter, seen_row};
ghost use Rattle.typing_rules.specs.Table.{builtin_named as the_builtin_named, named_in as the_named_in};
ghost use Rattle.typing_rules.specs.Table.{params_of_builtin, signature};

use crate::form::Form;
use crate::parameter::Parameter;
use crate::uses::Builtin;

/// The types that stand in the table. A row has at most one variable of each sort.
#[derive(Clone, Copy, Debug, PartialEq, Eq)]
pub enum RowType {
    Int,
    Text,
    Bool,
    Decimal,
    Unit,
    Format,
    Anything,
    Source,
    MonoSource,
    StereoSource,
    Sources,
    Pairs,
}

/// A builtin by its name, with its parameters in their order, the type of each, and the type of a call.
#[derive(Clone, Copy, Debug)]
pub struct Row {
    pub builtin: Builtin,
    pub name: &'static str,
    pub params: &'static [Parameter<'static>],
    pub types: &'static [RowType],
    pub result: RowType,
}

macro_rules! row {
    ($builtin:ident, $name:literal, ($($form:ident $label:literal: $ty:ident),*) -> $result:ident) => {
        Row {
            builtin: Builtin::$builtin,
            name: $name,
            params: &[$(Parameter { name: $label, form: Form::$form }),*],
            types: &[$(RowType::$ty),*],
            result: RowType::$result,
        }
    };
}

/// The rows, in the order of the builtins.
const ROWS: [Row; 20] = [
    row!(OutputFile, "output.file",
        (Perhaps "id": Text, Perhaps "fallible": Bool, InPlace "format": Format, InPlace "name": Text,
         InPlace "s": Source) -> Unit),
    row!(Set, "set", (InPlace "key": Text, InPlace "value": Anything) -> Unit),
    row!(Single, "single", (Perhaps "id": Text, InPlace "file": Text) -> Source),
    row!(Playlist, "playlist",
        (Perhaps "id": Text, Perhaps "loop": Bool, Perhaps "mode": Text, InPlace "file": Text) -> Source),
    row!(Blank, "blank", (Perhaps "id": Text, Perhaps "duration": Decimal) -> Source),
    row!(Square, "square", (Perhaps "id": Text, InPlace "f": Decimal) -> Source),
    row!(Fail, "fail", (Perhaps "id": Text) -> Source),
    row!(Fallback, "fallback",
        (Perhaps "id": Text, Perhaps "track_sensitive": Bool, InPlace "sources": Sources) -> Source),
    row!(Switch, "switch", (Perhaps "id": Text, Perhaps "track_sensitive": Bool, InPlace "pairs": Pairs) -> Source),
    row!(Sequence, "sequence", (Perhaps "id": Text, InPlace "sources": Sources) -> Source),
    row!(Rotate, "rotate", (Perhaps "id": Text, InPlace "sources": Sources) -> Source),
    row!(Random, "random", (Perhaps "id": Text, Perhaps "seed": Int, InPlace "sources": Sources) -> Source),
    row!(Add, "add", (Perhaps "id": Text, Perhaps "normalize": Bool, InPlace "sources": Sources) -> Source),
    row!(Amplify, "amplify", (Perhaps "id": Text, InPlace "k": Decimal, InPlace "s": Source) -> Source),
    row!(Mean, "mean", (Perhaps "id": Text, InPlace "s": StereoSource) -> MonoSource),
    row!(Stereo, "stereo", (Perhaps "id": Text, InPlace "s": MonoSource) -> StereoSource),
    row!(Crossfade, "crossfade", (Perhaps "id": Text, Perhaps "duration": Decimal, InPlace "s": Source) -> Source),
    row!(Mksafe, "mksafe", (Perhaps "id": Text, InPlace "s": Source) -> Source),
    row!(Buffer, "buffer",
        (Perhaps "id": Text, Perhaps "buffer": Decimal, Perhaps "max": Decimal, InPlace "s": Source) -> Source),
    row!(Clock, "clock", (Perhaps "id": Text, InPlace "s": Source) -> Source),
];

/// The row of a builtin. It takes no memory.
pub fn builtin_row(builtin: Builtin) -> &'static Row
    ensures params { map seen_parameter result.now.params.now ≡ params_of_builtin builtin }
    ensures types { map row_term result.now.types.now ≡ map (λ p. p.1) (signature builtin).params }
    ensures call { row_term result.now.result ≡ (signature builtin).result }
{
    &ROWS[builtin as usize]
}

/// The builtin of this name, as a script writes it; `None` if no builtin has it. It takes no memory.
pub fn builtin_named(name: &str) -> Option<Builtin>
    ensures same { result ≡ the_builtin_named name.now }
{
    named_in(&ROWS, name)
}

/// Whether two names are the same. Only those of one length are compared further.
pub fn is_same_name(name: &str, other: &str) -> bool
    ensures same { result ≡ bytes_eq name.now other.now }
{
    name.len() == other.len() && name == other
}

/// The builtin of this name in a table, if one has it.
fn named_in(rows: &[Row], name: &str) -> Option<Builtin>
    ensures same { result ≡ the_named_in name.now (map seen_row rows.now) }
{
    for row in rows {
        if is_same_name(name, row.name) {
            return Some(row.builtin);
        }
    }
    None
}
