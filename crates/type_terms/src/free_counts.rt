// Variables that are bound to nothing, counted.
ghost use Rattle.std.specs.Prelude.{◌≡◌, ◌+◌, Option, List, take};
ghost use Rattle.type_terms.specs.Counting.{free_kinds, free_types, one_if_free};

use crate::ty::KindTerm;
use crate::type_variable::TypeVariable;

/// How many type variables from number `first` on are bound to nothing; 0 where there are none. It looks at these
/// alone.
pub fn free_types_behind(types: &[TypeVariable], first: usize) -> usize
    ensures { free_types (take first types.now) + result ≡ free_types types.now }
{
    if first > types.len() {
        return 0;
    }
    let (_, later) = types.split_at(first);
    count_types(later)
}

/// How many kind variables from number `first` on are bound to nothing; 0 where there are none. It looks at these
/// alone.
pub fn free_kinds_behind(kinds: &[Option<KindTerm>], first: usize) -> usize
    ensures { free_kinds (take first kinds.now) + result ≡ free_kinds kinds.now }
{
    if first > kinds.len() {
        return 0;
    }
    let (_, later) = kinds.split_at(first);
    count_kinds(later)
}

/// How many of the type variables are bound to nothing.
fn count_types(types: &[TypeVariable]) -> usize
    ensures { result ≡ free_types types.now }
{
    let mut free = 0;
    for variable in types {
        free += variable.free_count();
    }
    free
}

/// How many of the kind variables are bound to nothing.
fn count_kinds(kinds: &[Option<KindTerm>]) -> usize
    ensures { result ≡ free_kinds kinds.now }
{
    let mut free = 0;
    for kind in kinds {
        free += kind_count(*kind);
    }
    free
}

/// 1 for a kind variable that is bound to nothing, else 0, to be added up.
fn kind_count(bound: Option<KindTerm>) -> usize
    ensures { result ≡ one_if_free bound }
{
    match bound {
        Some(_) => 0,
        None => 1,
    }
}
