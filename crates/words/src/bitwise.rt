// The bitwise operations on words.
ghost use Rattle.std.specs.Prelude.{◌≡◌};
ghost use Rattle.words.specs.Bitwise.{xor_of, or_of, and_of};

pub fn xor(a: u32, b: u32) -> u32
    ensures { result ≡ xor_of a b }
{
    a ^ b
}

pub fn or(a: u32, b: u32) -> u32
    ensures { result ≡ or_of a b }
{
    a | b
}

pub fn and(a: u32, b: u32) -> u32
    ensures { result ≡ and_of a b }
{
    a & b
}
