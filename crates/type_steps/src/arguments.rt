// Which parameter takes which argument, by their types.
ghost use Rattle.std.specs.Prelude.{◌≡◌, ◌<◌, get_or, length, map, option_map, IfOk, OnOk};
ghost use Rattle.type_terms.specs.Table.{IsOver};
ghost use Rattle.type_terms.specs.Term.{meaning, term_of};
ghost use Rattle.typing_rules.specs.Arguments.{Matched, argument, label_of as the_label_of, others as the_others};
ghost use Rattle.name_scope.specs.Seen.{seen_label, seen_parameter};
ghost use Rattle.type_steps.specs.Flow.{AreInside, AreTermsOver, IsMade, given_under};
ghost use Rattle.type_steps.specs.Fitting.{FitsOne, IsInside, left_given, seen_argument, var_at};

use crate::steps::is_type;
use liq_base::Memory;
use name_scope::{Labels, Parameter, is_label, is_needed, label_of};
use std::alloc::Global;
use type_terms::{Subst, Ty};

/// Up to this many arguments of a call are searched anew for each parameter; of more a table is made.
const FEW_ARGUMENTS: usize = 16;

/// An argument of a call: its label, if it has one, and the number of the type variable that is its type.
#[derive(Clone, Copy, Debug)]
pub struct Argument<'a> {
    pub label: Option<&'a str>,
    pub var: u64,
}

/// Makes the arguments of a call (`given`) have the types (`types`) of the callee's parameters (`params`), each at the
/// parameter that takes it. False if they cannot, or if one is left over. `subst`, the substitution, has what is known
/// of types. Arguments that were matched may leave `given`.
pub fn fit(
    alloc: Global,
    subst: &mut Subst,
    params: &[Parameter<'_>],
    types: &[Ty],
    given: &mut Vec<Argument<'_>>,
) -> Result<bool, Memory>
    requires over { AreTermsOver subst.old (map term_of types.now) }
    requires inside { AreInside subst.old (map seen_argument given.old.items) }
    ensures { IfOk result (λ yes. IsMade yes subst.old subst.new
        (λ a. Matched (map seen_parameter params.now) (given_under a (map seen_argument given.old.items))
        (map (meaning a) (map term_of types.now)))) }
{
    if params.len() != types.len() {
        return Ok(false);
    }
    if given.len() > FEW_ARGUMENTS {
        return fit_many(alloc, subst, params, types, given);
    }
    for i in 0..params.len() {
        let param = param_at(params, i);
        let taken = take_argument(given, label_of(param));
        let fits = fit_one(alloc, subst, param, &types[i], taken)?;
        if !fits {
            return Ok(false);
        }
    }
    Ok(given.is_empty())
}

/// Does as `fit` for a call of many arguments (`given`), by a table of their labels: they are then not searched anew
/// for each of the parameters (`params`). False if they cannot have the parameters' types (`types`), or one is left
/// over. `subst`, the substitution, has what is known of types.
fn fit_many(
    alloc: Global,
    subst: &mut Subst,
    params: &[Parameter<'_>],
    types: &[Ty],
    given: &[Argument<'_>],
) -> Result<bool, Memory>
    requires over { AreTermsOver subst.old (map term_of types.now) }
    requires inside { AreInside subst.old (map seen_argument given.now) }
    requires same_many { length params.now ≡ length types.now }
    ensures { IfOk result (λ yes. IsMade yes subst.old subst.new
        (λ a. Matched (map seen_parameter params.now) (given_under a (map seen_argument given.now))
        (map (meaning a) (map term_of types.now)))) }
{
    let mut labels = Labels::new(alloc, labels_of(alloc, given)?)?;
    fit_labelled(alloc, subst, params, types, given, &mut labels)
}

/// Makes the arguments of a call that are left in the table `labels` have the types (`types`) of the callee's
/// parameters (`params`). False if they cannot, or if one is left over. `given` has all arguments, and `subst`, the
/// substitution, what is known of types.
fn fit_labelled(
    alloc: Global,
    subst: &mut Subst,
    params: &[Parameter<'_>],
    types: &[Ty],
    given: &[Argument<'_>],
    labels: &mut Labels<'_>,
) -> Result<bool, Memory>
    requires over { AreTermsOver subst.old (map term_of types.now) }
    requires inside { AreInside subst.old (map seen_argument given.now) }
    requires same_many { length params.now ≡ length types.now }
    requires all { left_given given.now labels.old ≡ map seen_argument given.now }
    ensures { IfOk result (λ yes. IsMade yes subst.old subst.new
        (λ a. Matched (map seen_parameter params.now) (given_under a (map seen_argument given.now))
        (map (meaning a) (map term_of types.now)))) }
{
    for i in 0..params.len() {
        let param = param_at(params, i);
        let taken = take_labelled(labels, given, label_of(param))?;
        let fits = fit_one(alloc, subst, param, &types[i], taken)?;
        if !fits {
            return Ok(false);
        }
    }
    Ok(labels.is_empty())
}

/// The labels of a call's arguments, in order; `None` for one without a label.
fn labels_of<'a>(alloc: Global, given: &[Argument<'a>]) -> Result<Vec<Option<&'a str>>, Memory>
    ensures same { IfOk result (λ ls. map seen_label ls.items ≡ map (λ g. seen_label g.label) given.now) }
{
    let mut labels = Vec::new(alloc);
    for one in given {
        labels.push(one.label)?;
    }
    Ok(labels)
}

/// Takes out of the table `labels` the first argument left with this label, or the first without one where `label` is
/// none. Answers its type variable, which `given`, the list of all arguments, has; `None` if there is no such argument.
fn take_labelled(
    labels: &mut Labels<'_>,
    given: &[Argument<'_>],
    label: Option<&str>,
) -> Result<Option<u64>, Memory>
    ensures taken { IfOk result (λ r. r
        ≡ option_map (λ x. x.0) (argument (seen_label label.entry) (left_given given.now labels.old))) }
    ensures others { OnOk result (left_given given.now labels.new
        ≡ the_others (left_given given.now labels.old)
        (argument (seen_label label.entry) (left_given given.now labels.old))) }
{
    match labels.take(label)? {
        None => Ok(None),
        Some(place) => Ok(Some(var_of(given, place))),
    }
}

/// The type variable of the argument of a call at index `place`; 0 if there is none.
fn var_of(given: &[Argument<'_>], place: usize) -> u64
    ensures at { result ≡ var_at given.now place }
{
    match given.get(place) {
        Some(one) => one.var,
        None => 0,
    }
}

/// Takes out of `given` the first argument with this label, or the first without one where `label` is none. Returns
/// its type variable; `None` if there is no such argument.
fn take_argument(given: &mut Vec<Argument<'_>>, label: Option<&str>) -> Option<u64>
    ensures taken { result ≡ option_map (λ x. x.0)
        (argument (seen_label label.entry) (map seen_argument given.old.items)) }
    ensures others { map seen_argument given.new.items
        ≡ the_others (map seen_argument given.old.items)
        (argument (seen_label label.entry) (map seen_argument given.old.items)) }
{
    for index in 0..given.len() {
        let one = given[index];
        if is_label(label, one.label) {
            given.remove(index);
            return Some(one.var);
        }
    }
    None
}

/// Makes `taken`, the type variable of a parameter's argument, have the parameter's type `ty`; false if it cannot.
/// Where there is no argument (`None`), it is true if the parameter need not have one. `subst` has what is known of
/// types.
fn fit_one(
    alloc: Global,
    subst: &mut Subst,
    param: Parameter<'_>,
    ty: &Ty,
    taken: Option<u64>,
) -> Result<bool, Memory>
    requires over { IsOver subst.old (term_of ty.now) }
    requires inside { IsInside subst.old taken }
    ensures { IfOk result (λ yes. IsMade yes subst.old subst.new
        (λ a. FitsOne (seen_parameter param.entry) (option_map a.type_of taken) (meaning a (term_of ty.now)))) }
{
    match taken {
        None => Ok(!is_needed(param.form)),
        Some(var) => is_type(alloc, subst, var, ty),
    }
}

/// Parameter `i` of a callee's parameters, counted from 0; it must be there.
fn param_at<'a>(params: &[Parameter<'a>], i: usize) -> Parameter<'a>
    requires inside { i < length params.now }
    ensures at { result ≡ get_or params.now i result }
{
    params[i]
}
