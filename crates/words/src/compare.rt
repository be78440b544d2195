// The comparisons of the branches; `signed::below_signed` is the sixth.
ghost use Rattle.std.specs.Prelude.{◌≡◌};
ghost use Rattle.words.specs.Compare.{same, different, below_unsigned, at_least_unsigned, at_least_signed};

use crate::signed::below_signed;

pub fn equal(a: u32, b: u32) -> bool
    ensures { result ≡ same a b }
{
    a == b
}

pub fn not_equal(a: u32, b: u32) -> bool
    ensures { result ≡ different a b }
{
    a != b
}

pub fn at_least_signed(a: u32, b: u32) -> bool
    ensures { result ≡ at_least_signed a b }
{
    !below_signed(a, b)
}

pub fn below(a: u32, b: u32) -> bool
    ensures { result ≡ below_unsigned a b }
{
    a < b
}

pub fn at_least(a: u32, b: u32) -> bool
    ensures { result ≡ at_least_unsigned a b }
{
    b <= a
}
