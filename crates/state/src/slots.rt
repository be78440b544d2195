// The 64 completion slots, passed and returned by value.
ghost use Rattle.std.specs.Prelude.{◌≡◌};
ghost use Rattle.state.specs.Slots.{is_met, is_full, emitted, emitted_in};

use crate::edition::Edition;
use crate::plus_one::{plus_one, plus_one_at};
use words::arithmetic::sub;

// A wait is met in edition 1 if the slot's number is at least the target, in edition 2 if it is past it by less than half the
// range, round the wrap.
pub fn is_met(edition: Edition, slot: u32, target: u32) -> bool
    ensures { result ≡ is_met edition slot target }
{
    match edition {
        Edition::One => target <= slot,
        Edition::Two => sub(slot, target) < 0x8000_0000,
    }
}

// A full slot takes no more emits; in edition 2 none is full.
pub fn is_full(edition: Edition, slot: u32) -> bool
    ensures { result ≡ is_full edition slot }
{
    match edition {
        Edition::One => slot == 0xffff_ffff,
        Edition::Two => false,
    }
}

// The number that an emit leaves in its slot.
pub fn emitted(slot: u32) -> u32
    ensures { result ≡ emitted slot }
{
    plus_one(slot)
}

// An emit changes one place, slot n; where there is no such slot, none.
pub fn emit(mut slots: [u32; 64], n: u8) -> [u32; 64]
    ensures { result ≡ emitted_in slots n }
{
    plus_one_at(&mut slots, n as usize);
    slots
}
