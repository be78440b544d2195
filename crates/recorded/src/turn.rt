// A recorded turn.
ghost use Rattle.std.specs.Prelude.{◌≡◌};
ghost use Rattle.recorded.specs.Turn.{has_room, turn_recorded, called_of, made_seen, turn_seen, Laid};

use crate::call::Seen;
use crate::piece::{is_same, laid, length_of, place_of};
use capi::calls::turn_call;
use capi::image::IMAGE_BYTES;
use capi::report::REPORT_BYTES;
use memory::peek::peek_word;
use state::rings::Rings;

// The most bytes of a memory, of a ring or a pack, and of a pipe.
const MEMORY_ROOM: usize = 1048640;

const RING_ROOM: usize = 65792;

const PIPE_ROOM: usize = 2048;

// And of each piece that the call is made on.
const MOST: [usize; 8] = [
    IMAGE_BYTES,
    MEMORY_ROOM,
    RING_ROOM,
    RING_ROOM,
    RING_ROOM,
    RING_ROOM,
    RING_ROOM,
    PIPE_ROOM,
];

// Whether there is room for each of them.
#[tactic(auto, unfolding(crate::specs::Turn::has_room))]
fn has_room(body: &[u8]) -> bool
    ensures { result ≡ has_room body.now }
{
    (0..MOST.len()).all(|k| length_of(body, k) <= MOST[k])
}

// Whether a turn left and returned what is recorded.
#[tactic(auto, unfolding(crate::specs::Turn::turn_recorded))]
fn is_recorded(
    body: &[u8],
    image: &[u8],
    memory: &[u8],
    pipe: &[u8],
    report: &[u8],
    status: u32,
) -> bool
    ensures { result ≡ turn_recorded body.now (called_of image.now memory.now pipe.now report.now status) }
{
    let is_kept = is_same(image, body, 8) & is_same(memory, body, 9);
    let is_told = is_same(pipe, body, 10) & is_same(report, body, 11);
    let is_returned = status == peek_word(report, 0);
    let is_all = place_of(body, 12) == body.len();
    (is_kept & is_told) & (is_returned & is_all)
}

// Makes the call on what is lent, and compares what it leaves.
fn compare_answer(
    body: &[u8],
    image: &mut [u8],
    memory: &mut [u8],
    rings: Rings<'_>,
    pack: &[u8],
    pipe: &mut [u8],
) -> Seen
    requires { Laid body.now image.old memory.old rings.ring0.now rings.ring1.now rings.ring2.now rings.ring3.now pack.now pipe.old }
    ensures { result ≡ made_seen body.now }
{
    let mut report = [255u8; REPORT_BYTES];
    let status = turn_call(image, memory, rings, pack, pipe, &mut report);
    Seen::Turn(
        status,
        is_recorded(body, image, memory, pipe, &report, status),
    )
}

// A room of zeros. As a result it has its length by type, and no proof counts it.
fn room<const N: usize>() -> [u8; N] {
    [0u8; N]
}

// Lays the pieces into rooms of their own, and makes the call. The rooms take 1.3 MiB of stack. Inlined, they would stand in the
// caller's frame also where there is no record of a turn.
#[inline(never)]
#[tactic(auto, using(crate::proofs::Turns::has_room_lem), unfolding(crate::specs::Turn::turn_seen))]
pub fn compare(body: &[u8]) -> Seen
    ensures { result ≡ turn_seen body.now }
{
    if !has_room(body) {
        return Seen::Damaged;
    }
    let mut image_room = room::<IMAGE_BYTES>();
    let mut memory_room = room::<MEMORY_ROOM>();
    let mut room0 = room::<RING_ROOM>();
    let mut room1 = room::<RING_ROOM>();
    let mut room2 = room::<RING_ROOM>();
    let mut room3 = room::<RING_ROOM>();
    let mut pack_room = room::<RING_ROOM>();
    let mut pipe_room = room::<PIPE_ROOM>();
    let image = laid(&mut image_room, body, 0);
    let memory = laid(&mut memory_room, body, 1);
    let rings = Rings {
        ring0: laid(&mut room0, body, 2),
        ring1: laid(&mut room1, body, 3),
        ring2: laid(&mut room2, body, 4),
        ring3: laid(&mut room3, body, 5),
    };
    let pack = laid(&mut pack_room, body, 6);
    let pipe = laid(&mut pipe_room, body, 7);
    compare_answer(body, image, memory, rings, pack, pipe)
}
