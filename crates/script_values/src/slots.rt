// What names stand for, and what a call was given.
ghost use Rattle.std.specs.Prelude.{◌≡◌, Option, option_map, map, Some, None, IsNone, IfNone, IfOk, IfSome};
ghost use Rattle.typing_rules.specs.Arguments.{argument, is_label};
ghost use Rattle.script_values.specs.Places.{IsPlace};
ghost use Rattle.script_values.specs.Slots.{value_at_token};
ghost use Rattle.script_values.specs.Views.{view_given, view_slot};
ghost use Rattle.script_values.specs.View.{view_value};

use crate::Value;
use liq_base::{Memory, Text};
use std::alloc::Global;

/// A binding: the token of the name that it binds, and its value.
#[derive(Drop)]
pub struct Slot {
    pub at: u32,
    pub value: Value,
}

/// An argument of a call, by its label if it has one.
#[derive(Drop)]
pub struct Given {
    pub label: Option<Text>,
    pub value: Value,
}

/// The value that was bound to the name at token `at`: that of the first such binding; `None` if there is none.
pub fn slot_at(slots: &[Slot], at: u32) -> Option<&Value>
    ensures { option_map (λ v. view_value v.now) result ≡ value_at_token at (map view_slot slots.now) }
{
    for slot in slots {
        if slot.at == at {
            return Some(&slot.value);
        }
    }
    None
}

/// Takes the first argument with this label out of a call's arguments, or the first without a label (`None`), and gives
/// its value; `None` if there is none.
pub fn argument(given: &mut Vec<Given>, label: Option<&str>) -> Option<Value>
    ensures taken { option_map (λ v. (view_value v, map view_given given.new.items)) result
        ≡ argument (option_map (λ t. t.now) label.entry) (map view_given given.old.items) }
    ensures unchanged { IsNone result → given.new ≡ given.old }
{
    match place_of(given, label) {
        None => None,
        Some(place) => Some(given.remove(place).value),
    }
}

/// A copy of the label of an argument; `None` for an argument without one.
pub fn copy_label(alloc: Global, label: &Option<Text>) -> Result<Option<Text>, Memory>
    ensures { IfOk result (λ copied. copied ≡ label.now) }
{
    match label {
        None => Ok(None),
        Some(text) => Ok(Some(text.copy(alloc)?)),
    }
}

/// Whether an argument's label is the wanted one; `None` is an argument without a label.
fn is_label(wanted: Option<&str>, label: &Option<Text>) -> bool
    ensures { result ≡ is_label (option_map (λ t. t.now) wanted.entry) label.now }
{
    match (wanted, label) {
        (None, None) => true,
        (Some(wanted), Some(label)) => wanted.as_bytes() == label.as_str().as_bytes(),
        _ => false,
    }
}

// The index of the first argument of a call with this label, or of the first without a label (`None`); `None` if there
// is none.
fn place_of(given: &[Given], label: Option<&str>) -> Option<usize>
    ensures found { IfSome result (λ i. IsPlace (option_map (λ t. t.now) label.entry) given.now i) }
    ensures none { IfNone result (None ≡ argument (option_map (λ t. t.now) label.entry) (map view_given given.now)) }
{
    for (place, one) in given.iter().enumerate() {
        if is_label(label, &one.label) {
            return Some(place);
        }
    }
    None
}
