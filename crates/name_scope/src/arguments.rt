// Which parameter takes which argument.
ghost use Rattle.std.specs.Prelude.{◌≡◌, [], None, true, map, is_some, IfOk, OnOk};
ghost use Rattle.script_grammar.specs.View.{listed, view_arg, view_param};
ghost use Rattle.typing_rules.specs.Arguments.{argument, first_missing, is_label as the_same_label};
ghost use Rattle.typing_rules.specs.Arguments.{is_needed as is_wanted, label_of as the_label_of, left_over};
ghost use Rattle.typing_rules.specs.Arguments.{others as the_others, parameters_of};
ghost use Rattle.typing_rules.specs.Scoping.{tokens_given};
ghost use Rattle.name_scope.specs.InPlace.{has_label as has_a_label, left_behind as the_left_behind};
ghost use Rattle.name_scope.specs.InPlace.{left_by as the_left_by};
ghost use Rattle.name_scope.specs.Noted.{missing_with};
ghost use Rattle.name_scope.specs.Seen.{form_seen, left_of, seen_given, seen_label, seen_parameter};

use crate::labels::Labels;
use crate::parameter::Given;
use liq_base::Memory;
use script_grammar::tree::{Arg, Param, ParamForm};
use smallvec::SmallVec;
use std::alloc::Global;
use typing_rules::{Form, Parameter, is_same_name};

/// The arguments of one call that no parameter has taken yet. Up to four of them take no memory.
pub(crate) type Untaken<'a> = SmallVec<Given<'a>, 4>;

/// The parameters of a def, in order: their names, and how each takes its argument.
pub fn parameters<'a>(alloc: Global, params: &'a [Param]) -> Result<Vec<Parameter<'a>>, Memory>
    ensures same { IfOk result (λ r. map seen_parameter r.items ≡ parameters_of (listed (map view_param params.now))) }
{
    let mut seen = Vec::new(alloc);
    for param in params {
        seen.push(Parameter {
            name: param.name.as_str(),
            form: form_of(&param.form),
        })?;
    }
    Ok(seen)
}

/// The arguments of a call as untaken ones, in order: the label of each, and its first token.
pub(crate) fn given_arguments<'a>(alloc: Global, args: &'a [Arg]) -> Result<Untaken<'a>, Memory>
    ensures same { IfOk result (λ r. map seen_given r.items ≡ tokens_given (listed (map view_arg args.now))) }
{
    let mut given = SmallVec::new(alloc);
    for arg in args {
        let label = match &arg.label {
            None => None,
            Some(name) => Some(name.as_str()),
        };
        given.push(Given { label, at: arg.at })?;
    }
    Ok(given)
}

/// The label by which a parameter takes its argument; none where it takes one without a label.
pub fn label_of<'a>(param: Parameter<'a>) -> Option<&'a str>
    ensures same { seen_label result ≡ the_label_of (seen_parameter param.entry) }
{
    match param.form {
        Form::InPlace => None,
        Form::ByLabel => Some(param.name),
        Form::Perhaps => Some(param.name),
    }
}

/// Whether a parameter of this form must have an argument: each but one with a default.
pub fn is_needed(form: Form) -> bool
    ensures same { result ≡ is_wanted form }
{
    match form {
        Form::InPlace => true,
        Form::ByLabel => true,
        Form::Perhaps => false,
    }
}

/// Whether an argument has the label that is wanted, or none where none is wanted.
pub fn is_label(wanted: Option<&str>, label: Option<&str>) -> bool
    ensures same { result ≡ the_same_label (seen_label wanted.entry) (seen_label label.entry) }
{
    match (wanted, label) {
        (None, None) => true,
        (None, Some(_)) => false,
        (Some(_), None) => false,
        (Some(name), Some(other)) => is_same_name(name, other),
    }
}

/// Whether no argument has a label, and there is just one for each parameter that is given in its place, and none must
/// be given by its label: then no argument is missing, and none is left over. It takes no memory; false says only that
/// the arguments have to be matched one by one.
pub(crate) fn are_filled(params: &[Parameter<'_>], args: &[Arg]) -> bool
    ensures missing { result ≡ true
        → first_missing (map seen_parameter params.now) (tokens_given (listed (map view_arg args.now))) ≡ None }
    ensures left { result ≡ true
        → left_over (map seen_parameter params.now) (tokens_given (listed (map view_arg args.now))) ≡ [] }
{
    if has_label(args) {
        return false;
    }
    match left_behind(params, args.len()) {
        Some(left) => left == 0,
        None => false,
    }
}

/// Takes each argument that a parameter takes out of `given`, in the order of the parameters. Answers the name of the
/// first parameter that must have an argument and finds none; `None` where there is no such parameter.
pub(crate) fn match_arguments<'a>(
    params: &[Parameter<'a>],
    given: &mut Untaken<'_>,
) -> Option<&'a str>
    ensures missing { seen_label result
        ≡ first_missing (map seen_parameter params.now) (map seen_given given.old.items) }
    ensures left { map seen_given given.new.items
        ≡ left_over (map seen_parameter params.now) (map seen_given given.old.items) }
{
    let mut missing = None;
    for param in params {
        let taken = take_argument(given, label_of(*param));
        missing = missing_or(missing, *param, taken);
    }
    missing
}

/// The labels of a call's arguments, in order, from which a table of them is made.
pub(crate) fn labels_of<'a>(
    alloc: Global,
    given: &[Given<'a>],
) -> Result<Vec<Option<&'a str>>, Memory>
    ensures same { IfOk result (λ ls. map seen_label ls.items ≡ map (λ g. seen_label g.label) given.now) }
{
    let mut labels = Vec::new(alloc);
    for one in given {
        labels.push(one.label)?;
    }
    Ok(labels)
}

/// Takes out each argument that a parameter takes, by a table of the labels of a call's arguments. Answers the name of
/// the first parameter that must have an argument and finds none, or `None`; it fails only where memory is refused.
pub(crate) fn match_labels<'a>(
    params: &[Parameter<'a>],
    labels: &mut Labels<'_>,
) -> Result<Option<&'a str>, Memory>
    ensures missing { IfOk result (λ m. seen_label m
        ≡ first_missing (map seen_parameter params.now) (left_of labels.old)) }
    ensures left { OnOk result (left_of labels.new ≡ left_over (map seen_parameter params.now) (left_of labels.old)) }
{
    let mut missing = None;
    for param in params {
        let taken = takes(labels, label_of(*param))?;
        missing = missing_or(missing, *param, taken);
    }
    Ok(missing)
}

/// Takes the first untaken argument with this label out of the table of a call's labels; for `None` the first without
/// a label. True where there was any.
fn takes(labels: &mut Labels<'_>, label: Option<&str>) -> Result<bool, Memory>
    ensures taken { IfOk result (λ yes. yes ≡ is_some (argument (seen_label label.entry) (left_of labels.old))) }
    ensures others { OnOk result (left_of labels.new
        ≡ the_others (left_of labels.old) (argument (seen_label label.entry) (left_of labels.old))) }
{
    let place = labels.take(label)?;
    Ok(place.is_some())
}

/// How a def's parameter takes its argument, by how it is written: in its place, by its label, or by its label if it
/// is given at all.
fn form_of(form: &ParamForm) -> Form
    ensures same { result ≡ form_seen form.now }
{
    match form {
        ParamForm::Plain => Form::InPlace,
        ParamForm::Labelled => Form::ByLabel,
        ParamForm::Optional(_) => Form::Perhaps,
    }
}

/// Whether one of these arguments of a call has a label.
fn has_label(args: &[Arg]) -> bool
    ensures same { result ≡ has_a_label (tokens_given (listed (map view_arg args.now))) }
{
    for arg in args {
        if arg.label.is_some() {
            return true;
        }
    }
    false
}

/// How many of `count` arguments without labels are left once these parameters took theirs. `None` where one of them
/// finds none, or needs one with a label.
fn left_behind(params: &[Parameter<'_>], count: usize) -> Option<usize>
    ensures same { result ≡ the_left_behind (map seen_parameter params.now) (Some count) }
{
    let mut left = Some(count);
    for param in params {
        left = left_by(param.form, left);
    }
    left
}

/// How many of `count` arguments without labels are left once a parameter of this form took its own. `None` where
/// `count` is, where it finds none, or where it needs one with a label; one with a default takes none.
fn left_by(form: Form, count: Option<usize>) -> Option<usize>
    ensures same { result ≡ the_left_by form count }
{
    let count = count?;
    match form {
        Form::InPlace => one_less(count),
        Form::ByLabel => None,
        Form::Perhaps => Some(count),
    }
}

/// One less than `count`, how many arguments are left once a parameter took one; `None` for 0.
#[tactic(auto, using(crate::proofs::Filling::nothing_before))]
fn one_less(count: usize) -> Option<usize>
    ensures same { result ≡ the_left_by Form.InPlace (Some count) }
{
    if count == 0 { None } else { Some(count - 1) }
}

/// Takes the first argument with this label out of the list of those not taken yet; for `None` the first without a
/// label. True where there was any.
fn take_argument(given: &mut Untaken<'_>, label: Option<&str>) -> bool
    ensures taken { result ≡ is_some (argument (seen_label label.entry) (map seen_given given.old.items)) }
    ensures others { map seen_given given.new.items
        ≡ the_others (map seen_given given.old.items)
        (argument (seen_label label.entry) (map seen_given given.old.items)) }
{
    for index in 0..given.len() {
        if is_label(label, given[index].label) {
            given.remove(index);
            return true;
        }
    }
    false
}

/// The name of the first parameter of a call that lacks its argument: the one known from before (`missing`), or else
/// that of `param` if it must have an argument and `taken` says that it took none.
fn missing_or<'a>(missing: Option<&'a str>, param: Parameter<'a>, taken: bool) -> Option<&'a str>
    ensures same { seen_label result ≡ missing_with (seen_label missing.entry) (seen_parameter param.entry) taken }
{
    match missing {
        Some(name) => Some(name),
        None => {
            if taken || !is_needed(param.form) {
                None
            } else {
                Some(param.name)
            }
        }
    }
}
