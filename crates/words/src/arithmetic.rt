// The arithmetic of words.
ghost use Rattle.std.specs.Prelude.{◌≡◌};
ghost use Rattle.words.specs.Arithmetic.{sum, difference, product, shifted_left, shifted_right, shifted_signed, least, greatest, magnitude};

use crate::signed::below_signed;

pub fn add(a: u32, b: u32) -> u32
    ensures { result ≡ sum 32 a b }
{
    a.wrapping_add(b)
}

pub fn sub(a: u32, b: u32) -> u32
    ensures { result ≡ difference 32 a b }
{
    a.wrapping_sub(b)
}

pub fn mul(a: u32, b: u32) -> u32
    ensures { result ≡ product 32 a b }
{
    a.wrapping_mul(b)
}

pub fn shl(a: u32, b: u32) -> u32
    ensures { result ≡ shifted_left a b }
{
    a.wrapping_shl(b)
}

pub fn lsr(a: u32, b: u32) -> u32
    ensures { result ≡ shifted_right a b }
{
    a.wrapping_shr(b)
}

#[tactic(auto, unfolding(crate::specs::Arithmetic::shifted_signed))]
pub fn asr(a: u32, b: u32) -> u32
    ensures { result ≡ shifted_signed a b }
{
    a.cast_signed().wrapping_shr(b).cast_unsigned()
}

#[tactic(auto, unfolding(crate::specs::Arithmetic::least))]
pub fn min(a: u32, b: u32) -> u32
    ensures { result ≡ least a b }
{
    if below_signed(a, b) { a } else { b }
}

#[tactic(auto, unfolding(crate::specs::Arithmetic::greatest))]
pub fn max(a: u32, b: u32) -> u32
    ensures { result ≡ greatest a b }
{
    if below_signed(a, b) { b } else { a }
}

#[tactic(auto, unfolding(crate::specs::Arithmetic::magnitude))]
pub fn abs(a: u32) -> u32
    ensures { result ≡ magnitude a }
{
    a.cast_signed().unsigned_abs()
}
