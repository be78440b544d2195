// Loads and stores of four words, 16 bytes, at any address and alignment.
ghost use Rattle.std.specs.Prelude.{◌≡◌, ◌+◌, ◌≤◌, length};
ghost use Rattle.memory.specs.Address.{reach_of};
ghost use Rattle.memory.specs.Quad.{quad_at, with_quad, load_quad_of, store_quad_of};

use crate::address::{Outside, test};
use crate::place::{put_word, word_at};
use std::array::from_fn;

#[derive(Clone, Copy, Debug, PartialEq, Eq)]
pub struct Quad {
    pub words: [u32; 4],
}

#[tactic(auto, unfolding(crate::specs::Quad::quad_at))]
fn quad_at(window: &[u8], at: usize) -> Quad
    requires { at + 16 ≤ length window.now }
    ensures { result ≡ quad_at window.now at }
{
    Quad {
        words: from_fn(|i| word_at(window, at + 4 * i)),
    }
}

#[tactic(auto, unfolding(crate::specs::Quad::with_quad))]
fn put_quad(window: &mut [u8], at: usize, quad: Quad)
    requires { at + 16 ≤ length window.old }
    ensures { window.new ≡ with_quad window.old at quad }
{
    for (i, word) in quad.words.iter().enumerate() {
        put_word(window, at + 4 * i, *word);
    }
}

#[tactic(auto, unfolding(crate::specs::Quad::load_quad_of, crate::specs::Address::if_inside))]
pub fn load_quad(window: &[u8], address: u32) -> Result<Quad, Outside>
    ensures { result ≡ load_quad_of window.now address }
{
    test(window.len(), address, 16)?;
    Ok(quad_at(window, address as usize))
}

#[tactic(auto, unfolding(crate::specs::Quad::store_quad_of, crate::specs::Address::if_inside))]
pub fn store_quad(window: &mut [u8], address: u32, quad: Quad) -> Result<(), Outside>
    ensures { (result ≡ reach_of (length window.old) address 16) × (window.new ≡ store_quad_of window.old address quad) }
{
    test(window.len(), address, 16)?;
    put_quad(window, address as usize, quad);
    Ok(())
}
