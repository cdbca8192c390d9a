// The arguments of a call that no parameter has taken yet, found by their labels in one step each.
ghost use Rattle.std.specs.Prelude.{◌≡◌, ◌<◌, ℕ, [], cond, false, nat_eq, get_or, length, map, IfOk, OnErr, OnOk};
ghost use Rattle.std.specs.Prelude.{Option, Some, List};
ghost use Rattle.std.proofs.Props.{props};
ghost use Rattle.typing_rules.specs.Arguments.{argument, is_label, others as the_others};
ghost use Rattle.name_scope.specs.Labelled.{AreHeads, AreLinked, first_of, head_at, left_in, next_at, placed};
ghost use Rattle.name_scope.specs.Labelled.{seen_label};

use indexmap::IndexMap;
use liq_base::Memory;
use std::alloc::Global;

/// The arguments of a call by the places at which they stand, those of them that no parameter has taken yet, and for
/// each label the first of these.
#[derive(Drop)]
pub struct Labels<'a> {
    labels: Vec<Option<&'a str>>,
    taken: Vec<bool>,
    // For each argument the next one with its label.
    next: Vec<Option<usize>>,
    // The first argument with each label.
    named: IndexMap<&'a str, Option<usize>>,
    // The first one without a label.
    plain: Option<usize>,

    ghost taken_all: { length taken.items ≡ length labels.items },
    ghost next_all: { length next.items ≡ length labels.items },
    ghost linked: { AreLinked (next_at next.items) (left_in 0 (map seen_label labels.items) taken.items) } by { Prim.hlevel props },
    ghost heads: { AreHeads (head_at named plain) (left_in 0 (map seen_label labels.items) taken.items) } by { Prim.hlevel props },
}

impl<'a> Labels<'a> {
    ghost use Rattle.name_scope.specs.Seen.{left_of};

    /// The table of a call's arguments by these labels, of which none is taken yet.
    pub fn new(alloc: Global, labels: Vec<Option<&'a str>>) -> Result<Labels<'a>, Memory>
        ensures all { IfOk result (λ t. left_of t ≡ placed 0 (map seen_label labels.entry.items)) }
    {
        let taken = vec![in alloc; false; labels.len()]?;
        let mut next = vec![in alloc; None; labels.len()]?;
        let mut named = IndexMap::new(alloc);
        let mut plain = None;
        link_all(&labels, &mut next, &mut named, &mut plain)?;
        Ok(Labels {
            labels,
            taken,
            next,
            named,
            plain,
        })
    }

    /// Whether parameters took all arguments of the call.
    pub fn is_empty(&self) -> bool
        ensures none { result ≡ nat_eq (length (left_of self.now)) 0 }
    {
        for place in 0..self.labels.len() {
            if !self.is_taken(place) {
                return false;
            }
        }
        true
    }

    /// How many arguments the call has, taken or not.
    pub(crate) fn count(&self) -> usize
        ensures all { result ≡ length self.now.labels.items }
    {
        self.labels.len()
    }

    /// Whether a parameter took the argument at this place.
    pub(crate) fn is_taken(&self, place: usize) -> bool
        requires inside { place < length self.now.labels.items }
        ensures at { result ≡ get_or self.now.taken.items place false }
    {
        flag_at(&self.taken, place)
    }

    /// Takes out the first argument left with this label, or for `None` the first without one, and answers its place;
    /// `None` where there is none.
    ///
    /// Where memory runs out none is taken.
    pub fn take(&mut self, label: Option<&str>) -> Result<Option<usize>, Memory>
        ensures taken { IfOk result (λ r. r ≡ first_of (seen_label label.entry) (left_of self.old)) }
        ensures others { OnOk result (left_of self.new
            ≡ the_others (left_of self.old) (argument (seen_label label.entry) (left_of self.old))) }
    {
        let Some(place) = head(label, &self.named, self.plain) else {
            return Ok(None);
        };
        let own = label_at(&self.labels, place);
        let after = place_at(&self.next, place);
        set_head(own, &mut self.named, &mut self.plain, after)?;
        self.taken[place] = true;
        Ok(Some(place))
    }
}

/// The label of the argument at this place of a call, if it has one.
fn label_at<'a>(labels: &[Option<&'a str>], place: usize) -> Option<&'a str>
    requires inside { place < length labels.now }
    ensures at { result ≡ get_or labels.now place result }
{
    labels[place]
}

/// Whether the argument at this place was taken, by the list of these flags.
fn flag_at(flags: &[bool], place: usize) -> bool
    requires inside { place < length flags.now }
    ensures at { result ≡ get_or flags.now place false }
{
    flags[place]
}

/// The place of the next argument with the label of the one at `place`; `None` where that is the last. `places` has it
/// for each argument.
fn place_at(places: &[Option<usize>], place: usize) -> Option<usize>
    requires inside { place < length places.now }
    ensures at { result ≡ next_at places.now place }
{
    places[place]
}

/// The place of the first argument that is left with this label, by the table `named`; for `None` `plain`, that of the
/// first without a label. `None` where there is none.
fn head(
    label: Option<&str>,
    named: &IndexMap<&str, Option<usize>>,
    plain: Option<usize>,
) -> Option<usize>
    ensures at { result ≡ head_at named.now plain (seen_label label.entry) }
{
    match label {
        None => plain,
        Some(name) => match named.get(name) {
            Some(place) => *place,
            None => None,
        },
    }
}

/// Notes that the first argument left with this label stands at the place `head`, or that there is none: in the table
/// `named`, or for an argument without a label in `plain`.
fn set_head<'a>(
    label: Option<&'a str>,
    named: &mut IndexMap<&'a str, Option<usize>>,
    plain: &mut Option<usize>,
    head: Option<usize>,
) -> Result<(), Memory>
    ensures set { OnOk result ((other : Option (List ℕ))
        → head_at named.new plain.new other
        ≡ cond (is_label other (seen_label label.entry)) head (head_at named.old plain.old other)) }
    ensures err { OnErr result ((other : Option (List ℕ))
        → head_at named.new plain.new other ≡ head_at named.old plain.old other) }
{
    match label {
        None => {
            *plain = head;
            Ok(())
        }
        Some(name) => {
            named.insert(name, head)?;
            Ok(())
        }
    }
}

/// Fills the tables for the labels of a call's arguments, from the last one on: `next` tells for each argument the next
/// one with its label, `named` for each label the first one, and `plain` the first one without a label.
fn link_all<'a>(
    labels: &[Option<&'a str>],
    next: &mut [Option<usize>],
    named: &mut IndexMap<&'a str, Option<usize>>,
    plain: &mut Option<usize>,
) -> Result<(), Memory>
    requires long { length next.old ≡ length labels.now }
    requires none { AreHeads (head_at named.old plain.old) [] }
    ensures linked { OnOk result (AreLinked (next_at next.new) (placed 0 (map seen_label labels.now))) }
    ensures heads { OnOk result (AreHeads (head_at named.new plain.new) (placed 0 (map seen_label labels.now))) }
{
    for back in 0..labels.len() {
        let place = labels.len() - 1 - back;
        let label = label_at(labels, place);
        next[place] = head(label, named, *plain);
        set_head(label, named, plain, Some(place))?;
    }
    Ok(())
}
