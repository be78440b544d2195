// Whole calls that are refused, in their order.
ghost use Rattle.std.specs.Prelude.{◌≡◌, cond, Ok, Err};
ghost use Rattle.state.specs.Refusal.{refusal_number, window_fits, memory_fits, ring_sound, limit_fits, state_sound, ring_fits, rings_fit, windows_fit, verdict_of};

use crate::device::{Device, Ring, Window};
use command::frame::held_fault;
use pack::kernels::is_sound;

#[derive(Clone, Copy, Debug, PartialEq, Eq)]
pub enum Refusal {
    // 101: memory too long, or a window outside it or not in multiples of 4.
    Memory,
    // 102: marker above 3, limit outside 1 to 65,536, cursor above 65,536, a held frame that SET_FB would
    // refuse, or counts whose sums differ modulo 2^32.
    State,
    // 103: a ring too long or shorter than its cursor.
    Rings,
    // 104: pipe under 1,020 bytes.
    Pipe,
    // 105: faulty pack.
    Pack,
}

pub const MOST_MEMORY: usize = 1048576;

pub const MOST_RING: usize = 65536;

pub const LEAST_PIPE: usize = 1020;

pub const LEAST_LIMIT: u32 = 1;

pub const MOST_LIMIT: u32 = 65536;

impl From<Refusal> for u32 {
    ghost from_gives = { λ refusal n. n ≡ refusal_number refusal };

    fn from(refusal: Refusal) -> u32 {
        match refusal {
            Refusal::Memory => 101,
            Refusal::State => 102,
            Refusal::Rings => 103,
            Refusal::Pipe => 104,
            Refusal::Pack => 105,
        }
    }
}

#[tactic(auto, unfolding(crate::specs::Refusal::window_fits))]
fn window_fits(memory: usize, window: Window) -> bool
    ensures { result ≡ window_fits memory window }
{
    let end = window.start as usize + window.length as usize;
    (window.start % 4 == 0) & (window.length % 4 == 0) & (end <= memory)
}

#[tactic(auto, unfolding(crate::specs::Refusal::memory_fits))]
pub fn memory_fits(memory: usize, windows: [Window; 4]) -> bool
    ensures { result ≡ memory_fits memory windows }
{
    let all_fit = window_fits(memory, windows[0])
        & window_fits(memory, windows[1])
        & window_fits(memory, windows[2])
        & window_fits(memory, windows[3]);
    (memory <= MOST_MEMORY) & all_fit
}

#[tactic(auto, unfolding(crate::specs::Refusal::ring_sound))]
fn ring_sound(ring: Ring) -> bool
    ensures { result ≡ ring_sound ring }
{
    let frame = ring.frame;
    let window = ring.window;
    let held = held_fault(frame, window.length as usize);
    (ring.cursor as usize <= MOST_RING) & held.is_ok()
}

#[tactic(auto, unfolding(crate::specs::Refusal::limit_fits))]
pub fn limit_fits(limit: u32) -> bool
    ensures { result ≡ limit_fits limit }
{
    (LEAST_LIMIT <= limit) & (limit <= MOST_LIMIT)
}

#[tactic(auto, unfolding(crate::specs::Refusal::state_sound))]
fn state_sound(d: Device) -> bool
    ensures { result ≡ state_sound d }
{
    let rings = ring_sound(d.ring(0))
        & ring_sound(d.ring(1))
        & ring_sound(d.ring(2))
        & ring_sound(d.ring(3));
    let numbers = (d.marker <= 3) & limit_fits(d.limit) & d.counts.balanced();
    numbers & rings
}

#[tactic(auto, unfolding(crate::specs::Refusal::ring_fits))]
fn ring_fits(ring: Ring, length: usize) -> bool
    ensures { result ≡ ring_fits ring length }
{
    (length <= MOST_RING) & (ring.cursor as usize <= length)
}

#[tactic(auto, unfolding(crate::specs::Refusal::rings_fit))]
fn rings_fit(d: Device, l0: usize, l1: usize, l2: usize, l3: usize) -> bool
    ensures { result ≡ rings_fit d l0 l1 l2 l3 }
{
    ring_fits(d.ring(0), l0)
        & ring_fits(d.ring(1), l1)
        & ring_fits(d.ring(2), l2)
        & ring_fits(d.ring(3), l3)
}

#[tactic(auto, unfolding(crate::specs::Refusal::windows_fit))]
fn windows_fit(d: Device, memory: usize) -> bool
    ensures { result ≡ windows_fit d memory }
{
    let windows = [
        d.ring(0).window,
        d.ring(1).window,
        d.ring(2).window,
        d.ring(3).window,
    ];
    memory_fits(memory, windows)
}

// Refused for this reason unless the test holds.
pub fn refuse_unless<E: Copy>(holds: bool, why: E) -> Result<(), E>
    ensures { result ≡ cond holds (Ok tt) (Err why) }
{
    if holds { Ok(()) } else { Err(why) }
}

// The numbers are the lengths of the memory, the four rings and the pipe: lengths alone can be judged.
#[tactic(auto, unfolding(crate::specs::Refusal::verdict_of))]
pub fn judge(
    d: Device,
    memory: usize,
    l0: usize,
    l1: usize,
    l2: usize,
    l3: usize,
    pipe: usize,
    pack: &[u8],
) -> Result<(), Refusal>
    ensures { result ≡ verdict_of d memory l0 l1 l2 l3 pipe pack.now }
{
    refuse_unless(windows_fit(d, memory), Refusal::Memory)?;
    refuse_unless(state_sound(d), Refusal::State)?;
    refuse_unless(rings_fit(d, l0, l1, l2, l3), Refusal::Rings)?;
    refuse_unless(LEAST_PIPE <= pipe, Refusal::Pipe)?;
    refuse_unless(is_sound(pack), Refusal::Pack)
}
