// Which ring is served: the first ready one from the marker upward.
ghost use Rattle.std.specs.Prelude.{◌≡◌, ◌≤◌, ◌<◌, get_or};
ghost use Rattle.state.specs.Ready.{ready_with, ready_where, next_ring, pick_of, Steady};

use crate::device::{Device, Ring};
use crate::edition::Edition;
use crate::rings::Rings;
use crate::slots::is_met;
use command::faults::header_fault;
use command::header::{Command, command_at, is_whole};

#[tactic(auto, unfolding(crate::specs::Ready::ready_with))]
fn ready_with(edition: Edition, command: Command, slot: u32) -> bool
    ensures { result ≡ ready_with edition command slot }
{
    let faulty = header_fault(command).is_err();
    let waits = command.flags.wait();
    faulty | !waits | is_met(edition, slot, command.target)
}

fn slot_in(slots: &[u32], n: u8) -> u32
    ensures { result ≡ get_or slots.now n 0 }
{
    slots.get(n as usize).copied().unwrap_or(0)
}

// Whether a ring has a ready head command. The slots are lent, and the device is not handed over: four copies of it are a
// large part of an empty turn.
#[tactic(auto, unfolding(crate::specs::Ready::ready_where))]
fn is_ready(edition: Edition, ring: Ring, slots: &[u32], bytes: &[u8]) -> bool
    requires { ring.cursor ≤ 65536 }
    ensures { result ≡ ready_where edition ring slots.now bytes.now }
{
    let cursor = ring.cursor as usize;
    let command = command_at(bytes, cursor);
    let slot = slot_in(slots, command.rdst);
    is_whole(bytes, cursor, command) & ready_with(edition, command, slot)
}

#[tactic(auto, unfolding(crate::specs::Ready::next_ring))]
pub fn next_ring(q: u32) -> u32
    ensures { result ≡ next_ring q }
{
    if q < 3 { q + 1 } else { 0 }
}

// The first ready ring from the marker upward.
#[tactic(auto, unfolding(crate::specs::Ready::pick_of, crate::specs::Device::ring_of))]
pub fn pick(d: Device, rings: Rings<'_>) -> Option<u32>
    requires { Steady d }
    ensures { result ≡ pick_of d rings.entry.ring0.now rings.entry.ring1.now rings.entry.ring2.now rings.entry.ring3.now }
{
    let mut q = d.marker;
    for _ in 0..4u32 {
        let at = q as usize;
        let ring = d.rings[at];
        if is_ready(d.edition, ring, &d.slots, rings.ring(q)) {
            return Some(q);
        }
        q = next_ring(q);
    }
    None
}
