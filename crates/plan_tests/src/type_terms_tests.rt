// What no clause says: that the definitions mean what the language's types mean, that calls succeed, and that no depth
// is too deep.
use liq_base::{Kind, Memory};
use std::alloc::Global;
use std::fmt::Write;
use std::process::Abort;
use std::test::Fail;
use type_terms::{KindTerm, Subst, Ty, resolved, unify};

// The type of a list whose items have this type.
fn list(alloc: Global, item: Ty) -> Result<Ty, Memory> {
    Ok(Ty::List(Box::new(alloc, item)?))
}

// The type of a tuple of two values of these types.
fn pair(alloc: Global, first: Ty, second: Ty) -> Result<Ty, Memory> {
    let mut parts = Vec::new(alloc);
    parts.push(first)?;
    parts.push(second)?;
    Ok(Ty::Tuple(parts))
}

// The type for a name in the rows of these tests, such as `int`, `mono` or `var-0`: variables 0 and 1 may be any type,
// 2 and 3 a number, and kind variables 0 and 1 mono or stereo.
fn named(name: &str) -> Ty {
    match name {
        "int" => Ty::Int,
        "decimal" => Ty::Decimal,
        "text" => Ty::Text,
        "bool" => Ty::Bool,
        "pred" => Ty::Pred,
        "format" => Ty::Format,
        "var-0" => Ty::Var(0),
        "var-1" => Ty::Var(1),
        "number-2" => Ty::Var(2),
        "number-3" => Ty::Var(3),
        "mono" => Ty::Source(KindTerm::Fixed(Kind::Mono)),
        "stereo" => Ty::Source(KindTerm::Fixed(Kind::Stereo)),
        "kind-0" => Ty::Source(KindTerm::Var(0)),
        "kind-1" => Ty::Source(KindTerm::Var(1)),
        _ => Ty::Unit,
    }
}

// The type for a text in the rows of these tests: a name, `list` and the name of its items, or the names of the two
// parts of a pair.
fn made(alloc: Global, text: &str) -> Result<Ty, Memory> {
    match text.split_once(' ') {
        Some((first, second)) => made_of(alloc, first, second),
        None => Ok(named(text)),
    }
}

// The type for two names in the rows of these tests: the list of the second, if the first is `list`, or else the pair
// of both.
fn made_of(alloc: Global, first: &str, second: &str) -> Result<Ty, Memory> {
    if first == "list" {
        list(alloc, named(second))
    } else {
        pair(alloc, named(first), named(second))
    }
}

// A substitution with the variables of these tests, none bound: type variables 0 and 1, number variables 2 and 3, and
// kind variables 0 and 1.
fn six_variables(alloc: Global) -> Result<Subst, Memory> {
    let mut subst = Subst::new(alloc)?;
    for number in [false, false, true, true] {
        subst.fresh(number)?;
    }
    for _ in 0..2 {
        subst.fresh_kind()?;
    }
    Ok(subst)
}

// Unifies two types, that is, binds variables so that they become equal, and tells whether that is possible. Checks
// first that the substitution has their variables.
fn unified(
    rt: &impl Abort,
    alloc: Global,
    subst: &mut Subst,
    left: &Ty,
    right: &Ty,
) -> Result<bool, Memory> {
    let left_covered = subst.covers(alloc, left)?;
    assert!(rt; left_covered);
    let right_covered = subst.covers(alloc, right)?;
    assert!(rt; right_covered);
    unify(alloc, subst, left, right)
}

// The text of a type once each bound variable in it is replaced by its value.
fn resolved_text(rt: &impl Abort, alloc: Global, subst: &Subst, ty: &Ty) -> Result<String, Fail> {
    let covered = subst.covers(alloc, ty)?;
    assert!(rt; covered);
    let ty = resolved(alloc, subst, ty)?;
    Ok(format!(in alloc; "{ty:?}")?)
}

// Unifies two types, and gives the text of the first with its variables replaced, or `clash` if they cannot be equal.
// If the text of the second is another, as it should not be, it follows behind `and`.
fn outcome(
    rt: &impl Abort,
    alloc: Global,
    subst: &mut Subst,
    left: &Ty,
    right: &Ty,
) -> Result<String, Fail> {
    if !unified(rt, alloc, subst, left, right)? {
        return Ok(String::from_str(alloc, "clash")?);
    }
    let mut text = resolved_text(rt, alloc, subst, left)?;
    let other = resolved_text(rt, alloc, subst, right)?;
    if text.as_str() != other.as_str() {
        write!(text, " and {other}")?;
    }
    Ok(text)
}

// Checks that two types, over six free variables, unify to the type of the text `want`, or that they cannot where it is
// `clash`.
fn check_row(
    rt: &impl Abort,
    alloc: Global,
    left: &Ty,
    right: &Ty,
    want: &str,
) -> Result<(), Fail> {
    let mut subst = six_variables(alloc)?;
    let told = outcome(rt, alloc, &mut subst, left, right)?;
    assert_eq!(rt; told.as_str(), want, "{left:?} and {right:?}");
    Ok(())
}

// Checks each row of the form `LEFT = RIGHT is WANT`: the first two are types that are unified, and the third is the
// text of both then, or `clash`.
fn check_rows(rt: &impl Abort, alloc: Global, rows: &[&str]) -> Result<(), Fail> {
    for row in rows {
        let (left, rest) = row.split_once(" = ").expect(rt, "two types");
        let (right, want) = rest.split_once(" is ").expect(rt, "what both are");
        let left = made(alloc, left)?;
        let right = made(alloc, right)?;
        check_row(rt, alloc, &left, &right, want)?;
    }
    Ok(())
}

const ROWS: &[&str] = &[
    "int = text is clash",
    "var-0 = var-1 is Var(0)",
    "var-1 = var-0 is Var(0)",
    "number-2 = int is Int",
    "number-2 = text is clash",
    "var-0 = number-2 is Var(2)",
    "mono = stereo is clash",
    "kind-0 = mono is Source(Fixed(Mono))",
    "list number-2 = list decimal is List(Decimal)",
    "var-0 var-0 = var-1 text is Tuple([Text, Text])",
    "var-0 = list var-0 is clash",
    "int text = list int is clash",
];

// Unification makes two types equal where variables allow it, and else tells a clash.
#[test]
fn types_that_can_be_made_equal_and_not(rt: HostRuntime) -> Result<(), Fail> {
    check_rows(&rt, rt.alloc(), ROWS)
}

// The number of a type that is a variable; 0 for any other type.
fn number_of(ty: &Ty) -> u64 {
    match ty {
        Ty::Var(number) => *number,
        _ => 0,
    }
}

// Makes a new type variable that is bound to the list of variable number `below`, or, with `double`, to the pair of
// `below` and `below`; answers it as a type.
fn storey(
    rt: &impl Abort,
    alloc: Global,
    subst: &mut Subst,
    below: u64,
    double: bool,
) -> Result<Ty, Memory> {
    let built = if double {
        pair(alloc, Ty::Var(below), Ty::Var(below))?
    } else {
        list(alloc, Ty::Var(below))?
    };
    let top = subst.fresh(false)?;
    let yes = unified(rt, alloc, subst, &top, &built)?;
    assert!(rt; yes);
    Ok(top)
}

// Makes a deep type out of bound variables: the lowest is free, and each of `height` more is the list of the one
// before, or, with `double`, the pair of that one twice. Gives the last.
fn tower(
    rt: &impl Abort,
    alloc: Global,
    subst: &mut Subst,
    height: u64,
    double: bool,
) -> Result<Ty, Memory> {
    let mut top = subst.fresh(false)?;
    for _level in 0..height {
        top = storey(rt, alloc, subst, number_of(&top), double)?;
    }
    Ok(top)
}

// Checks that two huge types are unified with themselves and each other, though the first is too large to be built.
fn check_large(
    rt: &impl Abort,
    alloc: Global,
    subst: &mut Subst,
    ty: &Ty,
    other: &Ty,
) -> Result<(), Memory> {
    let again = unified(rt, alloc, subst, ty, ty)?;
    assert!(rt; again);
    let both = unified(rt, alloc, subst, ty, other)?;
    assert!(rt; both);
    let covered = subst.covers(alloc, ty)?;
    assert!(rt; covered);
    assert!(rt;
        resolved(alloc, subst, ty).is_err(),
        "too large to be built"
    );
    Ok(())
}

// Checks that two deep types made of `height` bound variables each are unified, though they are too large to be built.
fn check_towers(rt: &impl Abort, alloc: Global, height: u64, double: bool) -> Result<(), Memory> {
    let mut subst = Subst::new(alloc)?;
    let top = tower(rt, alloc, &mut subst, height, double)?;
    let other = tower(rt, alloc, &mut subst, height, double)?;
    check_large(rt, alloc, &mut subst, &top, &other)
}

// Lists within lists, 170000 deep, are unified, though they are too deep to be built.
#[test]
fn a_chain_of_170000_lists(rt: HostRuntime) -> Result<(), Fail> {
    Ok(check_towers(&rt, rt.alloc(), 170_000, false)?)
}

// Pairs of pairs, 30 levels deep with 2^30 leaves, are unified, though they are too large to be built.
#[test]
fn a_type_that_doubles_thirty_times(rt: HostRuntime) -> Result<(), Fail> {
    Ok(check_towers(&rt, rt.alloc(), 30, true)?)
}

// The type of lists within lists, so many levels deep, with ints within.
fn nested(alloc: Global, height: u64) -> Result<Ty, Memory> {
    let mut deep = Ty::Int;
    for _level in 0..height {
        deep = list(alloc, deep)?;
    }
    Ok(deep)
}

// A variable can be bound to a type of a thousand levels.
#[test]
fn a_thousand_levels_are_bound(rt: HostRuntime) -> Result<(), Fail> {
    let deep = nested(rt.alloc(), 999)?;
    let mut subst = six_variables(rt.alloc())?;
    let yes = unified(&rt, rt.alloc(), &mut subst, &Ty::Var(0), &deep)?;
    assert!(rt; yes);
    Ok(())
}

// A variable cannot be bound to a type of more than a thousand levels: memory is refused.
#[test]
fn more_than_a_thousand_levels_are_not(rt: HostRuntime) -> Result<(), Fail> {
    let deep = nested(rt.alloc(), 1000)?;
    let mut subst = six_variables(rt.alloc())?;
    let refused = unified(&rt, rt.alloc(), &mut subst, &Ty::Var(1), &deep);
    assert_eq!(rt; refused, Err(Memory));
    Ok(())
}
