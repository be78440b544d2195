// Numbers in decimal, put into lent bytes.
ghost use Rattle.std.specs.Prelude.{◌∷◌, [], ◌++◌, ◌+◌, ◌≤◌, length};
ghost use Rattle.spelling.specs.Put.{Put};
ghost use Rattle.spelling.specs.Decimal.{decimal};

// `n` from `at` on; the answer is the place after it.
#[tactic(auto, using(crate::proofs::DecimalLaws::decimal_small, crate::proofs::DecimalLaws::length_more))]
fn put_number(out: &mut [u8], at: usize, n: u32) -> usize
    requires { at + length (decimal n) ≤ length out.old }
    ensures { Put out.old at (decimal n) out.new result }
{
    if n < 10 {
        out[at] = b'0' + n as u8;
        return at + 1;
    }
    let end = put_number(out, at, n / 10);
    out[end] = b'0' + (n % 10) as u8;
    end + 1
}

// `n` and the byte `last` from `at` on; the answer is the place after them.
#[tactic(auto, using(crate::proofs::DecimalLaws::digits_of_word))]
pub fn put_field(out: &mut [u8], at: usize, n: u32, last: u8) -> usize
    requires { at + 11 ≤ length out.old }
    ensures { Put out.old at (decimal n ++ (last ∷ [])) out.new result × (result ≤ at + 11) }
{
    let end = put_number(out, at, n);
    out[end] = last;
    end + 1
}
