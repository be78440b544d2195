// Numbers of one, two and four bytes at a place of a window, where the bytes are known to lie inside.
ghost use Rattle.std.specs.Prelude.{◌≡◌, ◌+◌, ◌≤◌, length};
ghost use Rattle.memory.specs.Place.{half_at, word_at, with_byte, with_half, with_word};

use crate::transfer::transfer;
use words::bytes::{half, word, word_bytes};

#[tactic(auto, unfolding(crate::specs::Place::half_at))]
pub fn half_at(window: &[u8], at: usize) -> u32
    requires { at + 2 ≤ length window.now }
    ensures { result ≡ half_at window.now at }
{
    half(window[at], window[at + 1])
}

#[tactic(auto, unfolding(crate::specs::Place::word_at))]
pub fn word_at(window: &[u8], at: usize) -> u32
    requires { at + 4 ≤ length window.now }
    ensures { result ≡ word_at window.now at }
{
    word(window[at], window[at + 1], window[at + 2], window[at + 3])
}

#[tactic(auto, unfolding(crate::specs::Place::with_byte, crate::specs::Transfer::transferred, crate::specs::After::after))]
pub fn put_byte(window: &mut [u8], at: usize, value: u32)
    requires { at + 1 ≤ length window.old }
    ensures { window.new ≡ with_byte window.old at value }
{
    transfer(&word_bytes(value), 0, window, at, 1);
}

#[tactic(auto, unfolding(crate::specs::Place::with_half, crate::specs::Transfer::transferred, crate::specs::After::after))]
pub fn put_half(window: &mut [u8], at: usize, value: u32)
    requires { at + 2 ≤ length window.old }
    ensures { window.new ≡ with_half window.old at value }
{
    transfer(&word_bytes(value), 0, window, at, 2);
}

#[tactic(auto, unfolding(crate::specs::Place::with_word, crate::specs::Transfer::transferred, crate::specs::After::after))]
pub fn put_word(window: &mut [u8], at: usize, value: u32)
    requires { at + 4 ≤ length window.old }
    ensures { window.new ≡ with_word window.old at value }
{
    transfer(&word_bytes(value), 0, window, at, 4);
}
