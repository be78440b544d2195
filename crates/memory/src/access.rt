// Loads and stores of a byte, a half or a word, at any address and alignment.
ghost use Rattle.std.specs.Prelude.{◌≡◌, ◌+◌, ◌≤◌, length};
ghost use Rattle.memory.specs.Address.{reach_of};
ghost use Rattle.memory.specs.Access.{bytes_of, value_at, with_value, load_of, store_of};

use crate::address::{Outside, test};
use crate::place::{half_at, put_byte, put_half, put_word, word_at};
use words::signed::extend;

#[derive(Clone, Copy, Debug, PartialEq, Eq)]
pub enum Width {
    Byte,
    Half,
    Word,
}

fn bytes_of(width: Width) -> usize
    ensures { result ≡ bytes_of width }
{
    match width {
        Width::Byte => 1,
        Width::Half => 2,
        Width::Word => 4,
    }
}

#[tactic(auto, using(crate::proofs::Places::half_fits), unfolding(crate::specs::Access::value_at))]
fn value_at(window: &[u8], width: Width, at: usize) -> u32
    requires { at + bytes_of width ≤ length window.now }
    ensures { result ≡ value_at window.now width at }
{
    match width {
        Width::Byte => extend(8, window[at] as u32),
        Width::Half => extend(16, half_at(window, at)),
        Width::Word => word_at(window, at),
    }
}

#[tactic(auto, unfolding(crate::specs::Access::with_value))]
fn put_value(window: &mut [u8], width: Width, at: usize, value: u32)
    requires { at + bytes_of width ≤ length window.old }
    ensures { window.new ≡ with_value window.old width at value }
{
    match width {
        Width::Byte => put_byte(window, at, value),
        Width::Half => put_half(window, at, value),
        Width::Word => put_word(window, at, value),
    }
}

#[tactic(auto, unfolding(crate::specs::Access::load_of, crate::specs::Address::if_inside))]
pub fn load(window: &[u8], width: Width, address: u32) -> Result<u32, Outside>
    ensures { result ≡ load_of window.now width address }
{
    test(window.len(), address, bytes_of(width))?;
    Ok(value_at(window, width, address as usize))
}

#[tactic(auto, unfolding(crate::specs::Access::store_of, crate::specs::Address::if_inside))]
pub fn store(window: &mut [u8], width: Width, address: u32, value: u32) -> Result<(), Outside>
    ensures { (result ≡ reach_of (length window.old) address (bytes_of width)) × (window.new ≡ store_of window.old width address value) }
{
    test(window.len(), address, bytes_of(width))?;
    put_value(window, width, address as usize, value);
    Ok(())
}
