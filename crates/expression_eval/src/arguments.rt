// What the parameters of a def take of the arguments of a call.
ghost use Rattle.std.specs.Prelude.{◌≡◌, ◌++◌, IfOk, OnOk, Some, map, option_map};
ghost use Rattle.script_grammar.specs.View.{listed, view_param};
ghost use Rattle.typing_rules.specs.Arguments.{arguments_taken, label_of as the_label_of, parameter_of, parameters_of};
ghost use Rattle.name_scope.specs.Labelled.{placed};
ghost use Rattle.name_scope.specs.Seen.{left_of, seen_label};
ghost use Rattle.script_values.specs.View.{view_value};
ghost use Rattle.script_values.specs.Views.{view_given};
ghost use Rattle.expression_eval.specs.Parameters.{AreApart, AreKept, value_at, view_taken};

use liq_base::{Memory, Text};
use name_scope::Labels;
use script_grammar::tree::{Param, ParamForm};
use script_values::{Given, Value, argument};
use std::alloc::Global;
use std::mem;

/// Up to this many arguments of a call are searched anew for each parameter; of more a table is made.
const FEW_ARGUMENTS: usize = 16;

/// For each parameter the argument that it takes, if it takes one: the first with its label, or the first without one,
/// as `docs/evaluation.md` says under "Order". Memory may be wanting, and nothing else.
pub fn taken_arguments(
    alloc: Global,
    params: &[Param],
    given: Vec<Given>,
) -> Result<Vec<Option<Value>>, Memory>
    ensures { IfOk result (λ taken. map view_taken taken.items
        ≡ arguments_taken (parameters_of (listed (map view_param params.now))) (map view_given given.items)) }
{
    if given.len() > FEW_ARGUMENTS {
        return taken_by_table(alloc, params, given);
    }
    let mut rest = given;
    let mut taken = Vec::new(alloc);
    take_in_turn(params, &mut rest, &mut taken)?;
    Ok(taken)
}

/// Adds to `taken` what each of these parameters takes of the arguments in `rest`, which it searches one after another.
fn take_in_turn(
    params: &[Param],
    rest: &mut Vec<Given>,
    taken: &mut Vec<Option<Value>>,
) -> Result<(), Memory>
    ensures { OnOk result (map view_taken taken.new.items
        ≡ map view_taken taken.old.items
        ++ arguments_taken (parameters_of (listed (map view_param params.now))) (map view_given rest.old.items)) }
{
    for param in params {
        taken.reserve(1)?;
        taken.push_reserved(argument(rest, label_of(param)));
    }
    Ok(())
}

/// For each parameter the argument of `given` that it takes, or `None`, found by a table of the arguments' labels. It
/// is for calls of many arguments, where a search for each parameter would take long.
fn taken_by_table(
    alloc: Global,
    params: &[Param],
    given: Vec<Given>,
) -> Result<Vec<Option<Value>>, Memory>
    ensures { IfOk result (λ taken. map view_taken taken.items
        ≡ arguments_taken (parameters_of (listed (map view_param params.now))) (map view_given given.items)) }
{
    let places = places_taken(alloc, params, &given)?;
    let mut given = given;
    let mut taken = Vec::new(alloc);
    take_all(&places, &mut given, &mut taken)?;
    Ok(taken)
}

/// For each parameter the index in `given` of the argument that it takes; `None` for one that takes none. No two take
/// the same.
fn places_taken(
    alloc: Global,
    params: &[Param],
    given: &[Given],
) -> Result<Vec<Option<usize>>, Memory>
    ensures { IfOk result (λ places. places.items
        ≡ arguments_taken (parameters_of (listed (map view_param params.now)))
        (placed 0 (map (λ g. g.label) given.now))) }
{
    let mut labels = Labels::new(alloc, labels_of(alloc, given)?)?;
    let mut places = Vec::new(alloc);
    find_places(params, &mut labels, &mut places)?;
    Ok(places)
}

/// Adds to `places`, for each of these parameters, the index of the argument that it takes, or `None`. It takes it out
/// of `labels`, the table of the labels that are left, so that no other parameter gets it.
fn find_places(
    params: &[Param],
    labels: &mut Labels<'_>,
    places: &mut Vec<Option<usize>>,
) -> Result<(), Memory>
    ensures { OnOk result (places.new.items ≡ places.old.items
        ++ arguments_taken (parameters_of (listed (map view_param params.now))) (left_of labels.old)) }
{
    for param in params {
        let place = labels.take(label_of(param))?;
        places.push(place)?;
    }
    Ok(())
}

/// Adds to `taken` the values of the arguments at these indexes, and `None` for each place without one. They are moved
/// out of `given`, which is why no two indexes may be the same.
fn take_all(
    places: &[Option<usize>],
    given: &mut [Given],
    taken: &mut Vec<Option<Value>>,
) -> Result<(), Memory>
    requires apart { AreApart places.now }
    ensures { OnOk result (map view_taken taken.new.items
        ≡ map view_taken taken.old.items ++ map (option_map (value_at given.old)) places.now) }
{
    for place in places {
        taken.reserve(1)?;
        taken.push_reserved(take_value(given, *place));
    }
    Ok(())
}

/// Takes the value of the argument at index `place`, if there is an index, and leaves `Value::Nothing` in its stead.
fn take_value(given: &mut [Given], place: Option<usize>) -> Option<Value>
    ensures value { view_taken result ≡ option_map (value_at given.old) place }
    ensures others { AreKept place (value_at given.old) (value_at given.new) }
{
    let place = place?;
    Some(take_at(given, place))
}

/// Takes the value of the argument at index `place` out of `given`, and leaves `Value::Nothing` there. Past the last
/// argument the value is `Value::Nothing`.
fn take_at(given: &mut [Given], place: usize) -> Value
    ensures value { view_value result ≡ value_at given.old place }
    ensures others { AreKept (Some place) (value_at given.old) (value_at given.new) }
{
    if place >= given.len() {
        return Value::Nothing;
    }
    let one = &mut given[place];
    mem::replace(&mut one.value, Value::Nothing)
}

/// The labels of arguments, in order; `None` for one without a label.
fn labels_of(alloc: Global, given: &[Given]) -> Result<Vec<Option<&str>>, Memory>
    ensures same { IfOk result (λ labels. map seen_label labels.items ≡ map (λ g. g.label) given.now) }
{
    let mut labels = Vec::new(alloc);
    for one in given {
        labels.push(name_of(&one.label))?;
    }
    Ok(labels)
}

/// The name that a label is, if there is one.
fn name_of(label: &Option<Text>) -> Option<&str>
    ensures same { seen_label result ≡ label.entry.now }
{
    match label {
        None => None,
        Some(text) => Some(text.as_str()),
    }
}

/// The label of the argument that a parameter takes; `None` if the parameter takes one without a label.
fn label_of(param: &Param) -> Option<&str>
    ensures same { seen_label result ≡ the_label_of (parameter_of (view_param param.entry.now)) }
{
    match param.form {
        ParamForm::Plain => None,
        ParamForm::Labelled => Some(param.name.as_str()),
        ParamForm::Optional(_) => Some(param.name.as_str()),
    }
}
