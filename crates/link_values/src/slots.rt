//! The values of definitions, by number.

ghost use Rattle.std.specs.Prelude.{◌≡◌, List};
ghost use Rattle.link_meaning.specs.Member.{Member};
ghost use Rattle.link_meaning.specs.Search.{FoundDefinition};
ghost use Rattle.link_meaning.specs.LinkValues.{label_value};
ghost use Rattle.link_program.specs.Finding.{IsFirstOf};
ghost use Rattle.link_values.specs.Slots.{AreOnce, AreSlots, rows_of, value_of};

use omf_format::{Value, ValueFault};

/// What is known of a definition's value.
#[derive(Clone, Copy)]
pub enum ValueSlot {
    /// Nothing yet: an equate whose expression wasn't evaluated.
    Open,
    Done(Value),
    Failed(ValueFault),
}

fn value_of(slot: ValueSlot) -> Option<Value>
    ensures { result ≡ value_of slot }
{
    match slot {
        ValueSlot::Open => None,
        ValueSlot::Done(value) => Some(value),
        ValueSlot::Failed(_) => None,
    }
}

/// The value of a name, by the number of the first definition that it finds. A faulty equate has none, and a weak name without
/// a definition is 0.
pub fn label_of(slots: &[ValueSlot], found: Option<usize>, weak: bool) -> Option<Value>
    ensures { (list : List Member) (all founds : List FoundDefinition) → AreOnce all → AreSlots list all slots.now → IsFirstOf all founds found
        → result ≡ label_value list (rows_of all slots.now) weak founds }
{
    match found {
        None => { if weak { Some(Value::Fixed(0)) } else { None } }
        Some(number) => match slots.get(number) {
            Some(slot) => value_of(*slot),
            None => None,
        },
    }
}
