// The image of a device.
ghost use Rattle.std.specs.Prelude.{◌≡◌, ◌+◌, ◌*◌, ◌≤◌, length};
ghost use Rattle.std.proofs.lemmas.List.Edits.{sets};
ghost use Rattle.capi.specs.Image.{ring_size, marker_at, commands_at, bytes_of, held_of, base_of, format_of, ring_words, rings_words, frame_of, ring_at, counts_words, counts_in, last_words, edition_by, encode, decode};

use crate::lent::{put_words, window_at, word_in, words_in};
use command::frame::{Frame, stride_of};
use state::counts::Counts;
use state::device::{Device, Ring};
use state::edition::Edition;
use std::array::from_fn;

// How many words a ring has.
const RING_WORDS: usize = 7;

// The words where the slots, the marker, the limit, the commands taken, the outcomes and the edition stand.
const SLOTS_AT: usize = 4 * RING_WORDS;

const MARKER_AT: usize = SLOTS_AT + 64;

const LIMIT_AT: usize = MARKER_AT + 1;

const COMMANDS_AT: usize = LIMIT_AT + 1;

const OUTCOMES_AT: usize = COMMANDS_AT + 4;

const EDITION_AT: usize = OUTCOMES_AT + 15;

pub const IMAGE_BYTES: usize = 4 * (EDITION_AT + 1);

fn held_of(frame: Option<Frame>) -> u32
    ensures { result ≡ held_of frame }
{
    match frame {
        None => 0,
        Some(_) => 1,
    }
}

fn base_of(frame: Option<Frame>) -> u32
    ensures { result ≡ base_of frame }
{
    match frame {
        None => 0,
        Some(frame) => frame.base,
    }
}

fn format_of(frame: Option<Frame>) -> u32
    ensures { result ≡ format_of frame }
{
    match frame {
        None => 0,
        Some(frame) => frame.format,
    }
}

#[tactic(auto, unfolding(crate::specs::Image::ring_words))]
pub fn ring_words(ring: Ring) -> [u32; RING_WORDS]
    ensures { result ≡ ring_words ring }
{
    let window = ring.window;
    let frame = ring.frame;
    [
        window.start,
        window.length,
        ring.cursor,
        held_of(frame),
        base_of(frame),
        stride_of(frame),
        format_of(frame),
    ]
}

fn put_ring(image: &mut [u8], k: usize, ring: Ring)
    requires { 4 * (k + ring_size) ≤ length image.old }
    ensures { image.new ≡ sets image.old (4 * k) (bytes_of (ring_words ring)) }
{
    put_words(image, k, &ring_words(ring));
}

fn put_rings(image: &mut [u8; IMAGE_BYTES], d: Device)
    ensures { image.new ≡ sets image.old 0 (bytes_of (rings_words d)) }
{
    for q in 0..4 {
        put_ring(image, RING_WORDS * q as usize, d.ring(q));
    }
}

#[tactic(auto, unfolding(crate::specs::Image::counts_words))]
fn put_counts(image: &mut [u8; IMAGE_BYTES], counts: Counts)
    ensures { image.new ≡ sets image.old (4 * commands_at) (bytes_of (counts_words counts)) }
{
    put_words(image, COMMANDS_AT, &counts.commands);
    put_words(image, OUTCOMES_AT, &counts.outcomes);
}

// The words after the slots.
fn put_last(image: &mut [u8; IMAGE_BYTES], d: Device)
    ensures { image.new ≡ sets image.old (4 * marker_at) (bytes_of (last_words d)) }
{
    put_words(image, MARKER_AT, &[d.marker, d.limit]);
    put_counts(image, d.counts);
    put_words(image, EDITION_AT, &[d.edition.into()]);
}

#[tactic(auto, unfolding(crate::specs::Image::words_of, crate::specs::Image::encode))]
pub fn put_device(image: &mut [u8; IMAGE_BYTES], d: Device)
    ensures { image.new ≡ encode d }
{
    put_rings(image, d);
    put_words(image, SLOTS_AT, &d.slots);
    put_last(image, d);
}

#[tactic(auto, unfolding(crate::specs::Image::frame_of))]
fn frame_of(held: u32, base: u32, stride: u32, format: u32) -> Option<Frame>
    ensures { result ≡ frame_of held base stride format }
{
    if held == 0 {
        return None;
    }
    Some(Frame {
        base,
        stride,
        format,
    })
}

#[tactic(auto, unfolding(crate::specs::Image::ring_at))]
fn ring_at(image: &[u8], k: usize) -> Ring
    requires { 4 * (k + ring_size) ≤ length image.now }
    ensures { result ≡ ring_at image.now k }
{
    let frame = frame_of(
        word_in(image, k + 3),
        word_in(image, k + 4),
        word_in(image, k + 5),
        word_in(image, k + 6),
    );
    Ring {
        window: window_at(image, k),
        cursor: word_in(image, k + 2),
        frame,
    }
}

#[tactic(auto, unfolding(crate::specs::Image::counts_in))]
fn counts_in(image: &[u8; IMAGE_BYTES]) -> Counts
    ensures { result ≡ counts_in image.now }
{
    Counts {
        commands: words_in(image, COMMANDS_AT),
        outcomes: words_in(image, OUTCOMES_AT),
    }
}

// No word is a bad edition: any but 2 is edition 1.
#[tactic(auto, unfolding(crate::specs::Image::edition_by))]
fn edition_by(word: u32) -> Edition
    ensures { result ≡ edition_by word }
{
    match word {
        2 => Edition::Two,
        _ => Edition::One,
    }
}

#[tactic(auto, unfolding(crate::specs::Image::decode))]
pub fn device_in(image: &[u8; IMAGE_BYTES]) -> Device
    ensures { result ≡ decode image.now }
{
    let rings = from_fn(|q| ring_at(image, RING_WORDS * q));
    let slots = words_in(image, SLOTS_AT);
    let marker = word_in(image, MARKER_AT);
    let limit = word_in(image, LIMIT_AT);
    let edition = edition_by(word_in(image, EDITION_AT));
    Device::of(rings, slots, marker, limit, counts_in(image), edition)
}
