// What was found of the names of a script: what they stand for, and the fault that is told.
ghost use Rattle.std.specs.Prelude.{◌≡◌, ◌++◌, ◌∷◌, [], None, OnOk, cond, map};
ghost use Rattle.script_grammar.specs.View.{listed, view_arg, view_param};
ghost use Rattle.typing_rules.specs.NameFaults.{is_among as is_one_of, is_before as is_told_before, missing_at};
ghost use Rattle.typing_rules.specs.NameFaults.{number as the_number, repeated_at, repeats, token as the_token};
ghost use Rattle.typing_rules.specs.Scoping.{bound, call_meant, no_parameters, tokens_given, value_meant};
ghost use Rattle.typing_rules.specs.declared.fault.NameFault.TheVariants.{Extra};
ghost use Rattle.name_scope.specs.Labelled.{placed};
ghost use Rattle.name_scope.specs.Seen.{both_scopes, in_scope, left_of, seen_given, seen_label, seen_parameter};
ghost use Rattle.name_scope.specs.Seen.{token_at};
ghost use Rattle.name_scope.specs.Noted.{all_sooner, mismatches, noted, sooner, with_name};

use crate::arguments::{
    Untaken, are_filled, given_arguments, labels_of, match_arguments, match_labels,
};
use crate::builtins::builtin_params;
use crate::labels::Labels;
use crate::parameter::Given;
use crate::scope::{Bound, Scope, Scopes};
use liq_base::{Memory, Text};
use script_grammar::tree::{Arg, Param};
use std::alloc::Global;
use typing_rules::{NameFault, Parameter, Target, builtin_named, is_same_name};

/// So many arguments of a call are looked through for each parameter; more of them by a table.
const FEW_ARGUMENTS: usize = 16;

/// So many parameters of a def are compared with each other for a repeated name; more of them by a table.
const FEW_PARAMS: usize = 16;

/// A name that a script uses, by its token, and what it stands for.
#[derive(Clone, Copy, Debug, PartialEq, Eq)]
pub struct Resolved {
    pub at: u32,
    pub target: Target,
}

/// The names that were found, in the order of their tokens, and of the faults the one that is told.
#[derive(Drop)]
pub struct Notes {
    pub found: Vec<Resolved>,
    pub fault: Option<NameFault>,
}

// The token at which a fault of names is told, by which the faults of a statement are ordered.
fn token(fault: &NameFault) -> u32
    ensures same { result ≡ the_token fault.now }
{
    match fault {
        NameFault::Unknown { at } => *at,
        NameFault::Missing { at, label: _ } => *at,
        NameFault::Extra { at } => *at,
        NameFault::Repeated { at } => *at,
    }
}

// The rank of a fault's sort among the faults at one token: the one of the lowest is told.
fn number(fault: &NameFault) -> u32
    ensures same { result ≡ the_number fault.now }
{
    match fault {
        NameFault::Unknown { at: _ } => 1,
        NameFault::Missing { at: _, label: _ } => 2,
        NameFault::Extra { at: _ } => 3,
        NameFault::Repeated { at: _ } => 4,
    }
}

/// Whether the first fault is told rather than the second: by its token, and at one token by the rank of its sort.
/// True also where both are equal, so that the one known so far is kept.
fn is_before(first: &NameFault, second: &NameFault) -> bool
    ensures same { result ≡ is_told_before first.now second.now }
{
    if token(first) == token(second) {
        number(first) <= number(second)
    } else {
        token(first) <= token(second)
    }
}

/// The token of the argument at a place of a call; 0 where there is none.
fn token_of(given: &[Given<'_>], place: usize) -> u32
    ensures at { result ≡ token_at given.now place }
{
    match given.get(place) {
        Some(one) => one.at,
        None => 0,
    }
}

/// Whether one of the parameters has this name, so that a later one repeats it.
fn is_among(name: &Text, params: &[Param]) -> bool
    ensures same { result ≡ is_one_of name.now (map (λ p. p.name) params.now) }
{
    for param in params {
        if is_same_name(name.as_str(), param.name.as_str()) {
            return true;
        }
    }
    false
}

impl Notes {
    /// Notes of no names, and of no fault. It takes no memory.
    pub fn new(alloc: Global) -> Notes
        ensures found { result.found.items ≡ [] }
        ensures fault { result.fault ≡ None }
    {
        Notes {
            found: Vec::new(alloc),
            fault: None,
        }
    }

    /// Notes a fault of names: of the one known so far and this one, the one that stands first in the text is kept.
    fn add_fault(&mut self, fault: NameFault)
        ensures fault { self.new.fault ≡ sooner self.old.fault fault }
        ensures found { self.new.found ≡ self.old.found }
    {
        let keeps = match &self.fault {
            None => false,
            Some(known) => is_before(known, &fault),
        };
        if !keeps {
            self.fault = Some(fault);
        }
    }

    /// Notes the name at token `at` with what it stands for, behind those noted before.
    fn add_found(&mut self, at: u32, target: Target) -> Result<(), Memory>
        ensures found { OnOk result (self.new.found.items ≡ self.old.found.items ++ record {
          at = at;
          target = target;
        } ∷ []) }
        ensures fault { self.new.fault ≡ self.old.fault }
    {
        self.found.push(Resolved { at, target })?;
        Ok(())
    }

    /// Checks the arguments of the call at token `at` against the parameters of what it calls, and notes the faults: a
    /// missing argument, and those that no parameter takes.
    fn add_mismatches(
        &mut self,
        alloc: Global,
        at: u32,
        params: &[Parameter<'_>],
        args: &[Arg],
    ) -> Result<(), Memory>
        ensures fault { OnOk result (self.new.fault
            ≡ all_sooner self.old.fault
            (mismatches at (map seen_parameter params.now) (tokens_given (listed (map view_arg args.now))))) }
        ensures found { OnOk result (self.new.found ≡ self.old.found) }
    {
        if are_filled(params, args) {
            return Ok(());
        }
        let mut given = given_arguments(alloc, args)?;
        self.add_unmatched(alloc, at, params, &mut given)
    }

    // Checks the arguments of the call at token `at`, given by their labels and tokens, against these parameters, and
    // notes the faults. Few arguments are taken out of `given` as parameters take them; many are looked up in a table,
    // which spares a walk through the list for each parameter, and `given` stays as it is.
    fn add_unmatched(
        &mut self,
        alloc: Global,
        at: u32,
        params: &[Parameter<'_>],
        given: &mut Untaken<'_>,
    ) -> Result<(), Memory>
        ensures fault { OnOk result (self.new.fault
            ≡ all_sooner self.old.fault
            (mismatches at (map seen_parameter params.now) (map seen_given given.old.items))) }
        ensures found { OnOk result (self.new.found ≡ self.old.found) }
    {
        if given.len() > FEW_ARGUMENTS {
            return self.add_mismatches_of_many(alloc, at, params, &*given);
        }
        let missing = match_arguments(params, given);
        self.add_missing(alloc, at, missing)?;
        self.add_extra(&*given);
        Ok(())
    }

    // Checks the arguments of the call at token `at`, of which there are many, against these parameters, by a table
    // of their labels, and notes the faults.
    fn add_mismatches_of_many(
        &mut self,
        alloc: Global,
        at: u32,
        params: &[Parameter<'_>],
        given: &[Given<'_>],
    ) -> Result<(), Memory>
        ensures fault { OnOk result (self.new.fault
            ≡ all_sooner self.old.fault (mismatches at (map seen_parameter params.now) (map seen_given given.now))) }
        ensures found { OnOk result (self.new.found ≡ self.old.found) }
    {
        let mut labels = Labels::new(alloc, labels_of(alloc, given)?)?;
        self.add_by_labels(alloc, at, params, given, &mut labels)
    }

    // Checks the arguments of the call at token `at` against these parameters, by a table of their labels from which
    // none is taken yet, and notes the faults.
    fn add_by_labels(
        &mut self,
        alloc: Global,
        at: u32,
        params: &[Parameter<'_>],
        given: &[Given<'_>],
        labels: &mut Labels<'_>,
    ) -> Result<(), Memory>
        requires all { left_of labels.old ≡ placed 0 (map (λ g. seen_label g.label) given.now) }
        ensures fault { OnOk result (self.new.fault
            ≡ all_sooner self.old.fault (mismatches at (map seen_parameter params.now) (map seen_given given.now))) }
        ensures found { OnOk result (self.new.found ≡ self.old.found) }
    {
        let missing = match_labels(params, labels)?;
        self.add_missing(alloc, at, missing)?;
        self.add_left(&*labels, given);
        Ok(())
    }

    // Notes a fault for each argument that no parameter took. `labels` tells by its place in the call which are taken,
    // and `given` at which token it stands.
    fn add_left(&mut self, labels: &Labels<'_>, given: &[Given<'_>])
        ensures fault { self.new.fault
            ≡ all_sooner self.old.fault (map (λ g. Extra (token_at given.now g.1)) (left_of labels.now)) }
        ensures found { self.new.found ≡ self.old.found }
    {
        for index in 0..labels.count() {
            self.add_extra_if(!labels.is_taken(index), token_of(given, index));
        }
    }

    // Notes that no parameter takes the argument at token `at`, if it is left.
    fn add_extra_if(&mut self, left: bool, at: u32)
        ensures fault { self.new.fault ≡ cond left (sooner self.old.fault (Extra at)) self.old.fault }
        ensures found { self.new.found ≡ self.old.found }
    {
        if left {
            self.add_fault(NameFault::Extra { at });
        }
    }

    /// Notes that the call at token `at` lacks an argument, if it does: `missing` is the name of the parameter that
    /// finds none, or `None`.
    fn add_missing(&mut self, alloc: Global, at: u32, missing: Option<&str>) -> Result<(), Memory>
        ensures fault { OnOk result (self.new.fault
            ≡ all_sooner self.old.fault (missing_at at (seen_label missing.entry))) }
        ensures found { OnOk result (self.new.found ≡ self.old.found) }
    {
        match missing {
            None => Ok(()),
            Some(name) => {
                let label = Text::from_str(alloc, name)?;
                self.add_fault(NameFault::Missing { at, label });
                Ok(())
            }
        }
    }

    /// Notes a fault for each of these arguments, which no parameter takes.
    fn add_extra(&mut self, given: &[Given<'_>])
        ensures fault { self.new.fault ≡ all_sooner self.old.fault (map (λ g. Extra g.at) given.now) }
        ensures found { self.new.found ≡ self.old.found }
    {
        for one in given {
            self.add_fault(NameFault::Extra { at: one.at });
        }
    }

    /// Notes that the parameter at token `at` repeats the name of an earlier one, if it does.
    fn add_repeated(&mut self, repeats: bool, at: u32)
        ensures fault { self.new.fault ≡ all_sooner self.old.fault (repeated_at at repeats) }
        ensures found { self.new.found ≡ self.old.found }
    {
        if repeats {
            self.add_fault(NameFault::Repeated { at });
        }
    }

    /// Notes a fault for each parameter of a def that repeats the name of an earlier one.
    pub fn add_repeats(&mut self, alloc: Global, params: &[Param]) -> Result<(), Memory>
        ensures fault { OnOk result (self.new.fault
            ≡ all_sooner self.old.fault (repeats [] (listed (map view_param params.now)))) }
        ensures found { OnOk result (self.new.found ≡ self.old.found) }
    {
        if params.len() > FEW_PARAMS {
            return self.add_repeats_of_many(alloc, params);
        }
        self.add_repeats_of_few(params);
        Ok(())
    }

    // Notes a fault for each parameter that repeats the name of an earlier one, where they are so few that each is
    // compared with the earlier ones. It takes no memory.
    fn add_repeats_of_few(&mut self, params: &[Param])
        ensures fault { self.new.fault ≡ all_sooner self.old.fault (repeats [] (listed (map view_param params.now))) }
        ensures found { self.new.found ≡ self.old.found }
    {
        for index in 0..params.len() {
            let repeats = is_among(&params[index].name, &params[..index]);
            self.add_repeated(repeats, params[index].at);
        }
    }

    // Notes a fault for each parameter that repeats the name of an earlier one, by a table of the earlier names.
    fn add_repeats_of_many<'a>(&mut self, alloc: Global, params: &'a [Param]) -> Result<(), Memory>
        ensures fault { OnOk result (self.new.fault
            ≡ all_sooner self.old.fault (repeats [] (listed (map view_param params.entry.now)))) }
        ensures found { OnOk result (self.new.found ≡ self.old.found) }
    {
        let mut earlier: Scope<'a> = Scope::new(alloc);
        self.add_repeats_behind(params, &mut earlier)
    }

    // Notes a fault for each parameter that repeats the name of an earlier one. `earlier` takes their names, and none
    // stands in it at first; only whether a name stands there is asked, not what it is bound to.
    fn add_repeats_behind<'a>(
        &mut self,
        params: &'a [Param],
        earlier: &mut Scope<'a>,
    ) -> Result<(), Memory>
        requires empty { in_scope earlier.old ≡ [] }
        ensures fault { OnOk result (self.new.fault
            ≡ all_sooner self.old.fault (repeats [] (listed (map view_param params.entry.now)))) }
        ensures found { OnOk result (self.new.found ≡ self.old.found) }
    {
        for param in params {
            let known = earlier.find(param.name.as_str());
            self.add_repeated(known.is_some(), param.at);
            earlier.bind(param.name.as_str(), Bound::Value(param.at))?;
        }
        Ok(())
    }

    /// Notes the name at token `at`, which is used as a value: the token of the binding that it means in these scopes,
    /// or that it is unknown. The name of a def is unknown here, since a def can only be called.
    pub fn add_value(&mut self, scopes: Scopes<'_, '_>, at: u32, name: &Text) -> Result<(), Memory>
        ensures added { OnOk result (noted self.new ≡ with_name (noted self.old) (record {
          at = at;
          meant = no_parameters (value_meant (bound name.now (both_scopes scopes.entry)));
          given = [];
        })) }
    {
        match scopes.find(name.as_str()) {
            Some(Bound::Value(token)) => self.add_found(at, Target::Slot(*token)),
            Some(Bound::Function(_, _)) | None => {
                self.add_fault(NameFault::Unknown { at });
                Ok(())
            }
        }
    }

    /// Notes the name of the call at token `at`: the def or builtin that it means, and the faults of its arguments; or
    /// that it is unknown. The name of a value is unknown here, since a value cannot be called, and it hides a builtin.
    pub fn add_call(
        &mut self,
        alloc: Global,
        scopes: Scopes<'_, '_>,
        at: u32,
        name: &Text,
        args: &[Arg],
    ) -> Result<(), Memory>
        ensures added { OnOk result (noted self.new ≡ with_name (noted self.old) (record {
          at = at;
          meant = call_meant name.now (bound name.now (both_scopes scopes.entry));
          given = tokens_given (listed (map view_arg args.now));
        })) }
    {
        match scopes.find(name.as_str()) {
            Some(Bound::Value(_)) => {
                self.add_fault(NameFault::Unknown { at });
                Ok(())
            }
            Some(Bound::Function(token, params)) => {
                self.add_found(at, Target::Def(*token))?;
                self.add_mismatches(alloc, at, params, args)
            }
            None => self.add_outer_call(alloc, at, name, args),
        }
    }

    /// Notes the name of the call at token `at`, which nothing in scope has: the builtin of this name and the faults
    /// of the arguments, or that it is unknown.
    fn add_outer_call(
        &mut self,
        alloc: Global,
        at: u32,
        name: &Text,
        args: &[Arg],
    ) -> Result<(), Memory>
        ensures added { OnOk result (noted self.new ≡ with_name (noted self.old) (record {
          at = at;
          meant = call_meant name.now None;
          given = tokens_given (listed (map view_arg args.now));
        })) }
    {
        match builtin_named(name.as_str()) {
            None => {
                self.add_fault(NameFault::Unknown { at });
                Ok(())
            }
            Some(builtin) => {
                self.add_found(at, Target::Builtin(builtin))?;
                self.add_mismatches(alloc, at, builtin_params(builtin), args)
            }
        }
    }
}
