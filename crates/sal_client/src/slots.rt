//! A client's slots: its numbered places for transactions, for receipts and for chains.
ghost use Rattle.std.specs.Prelude.{◌≡◌, None, Some, IsSome, OnOk};
ghost use Rattle.std.specs.Option.{option_copied};
ghost use Rattle.sal_script.specs.Play.{set_slot};
ghost use Rattle.sal_client.specs.Slots.{held, place_in};

use sal_types::NoMemory;
use std::alloc::Global;

/// A slot that was filled, with its present value.
#[derive(Drop)]
pub struct Slot<T> {
    number: u8,
    value: Option<T>,
}

/// The values of the slots 0 to 255; an empty one has none. A slot is in the list once it was filled, and stays there: a client
/// has few, and the list is searched.
pub type Slots<T> = Vec<Slot<T>>;

/// Slots that are all empty. It takes no memory.
pub fn empty_slots<T>(alloc: Global) -> Slots<T>
    ensures { held result ≡ (λ k. None) }
{
    Vec::new(alloc)
}

/// Takes the value out of the slot.
pub fn take_slot<T: Drop>(slots: &mut Slots<T>, slot: u8) -> Option<T>
    ensures value { result ≡ held slots.old slot }
    ensures after { held slots.new ≡ set_slot slot None (held slots.old) }
{
    let place = place_of(slots, slot);
    if place < slots.len() {
        slots[place].value.take()
    } else {
        None
    }
}

/// Puts the value into the slot, in place of an earlier one.
pub fn fill_slot<T: Drop>(slots: &mut Slots<T>, slot: u8, value: T) -> Result<(), NoMemory>
    ensures { OnOk result (held slots.new ≡ set_slot slot (Some value) (held slots.old)) }
{
    let place = place_of(slots, slot);
    let filled = Slot {
        number: slot,
        value: Some(value),
    };
    if place < slots.len() {
        slots[place] = filled;
    } else {
        slots.push(filled)?;
    }
    Ok(())
}

/// The value of the slot, which is filled.
pub fn filled<T>(slots: &Slots<T>, slot: u8) -> &T
    requires { IsSome (held slots.now slot) }
    ensures { held slots.now slot ≡ Some result.now }
{
    match look_at(slots, slot) {
        Some(value) => value,
        None => unreachable!(),
    }
}

/// The value of the slot.
pub fn look_at<T>(slots: &Slots<T>, slot: u8) -> Option<&T>
    ensures { option_copied result ≡ held slots.now slot }
{
    for it in slots {
        if it.number == slot {
            return it.value.as_ref();
        }
    }
    None
}

// The index of the slot, or the length if it is not in the list.
fn place_of<T>(slots: &[Slot<T>], slot: u8) -> usize
    ensures { result ≡ place_in slots.now slot }
{
    for (place, it) in slots.iter().enumerate() {
        if it.number == slot {
            return place;
        }
    }
    slots.len()
}
