// Sign extension, and the signed order of words.
ghost use Rattle.std.specs.Prelude.{◌≡◌, ◌^◌, ◌<◌};
ghost use Rattle.words.specs.Signed.{extended, below_signed};

// A number of `bits` bits as a word, its sign repeated.
pub fn extend(bits: u32, x: u32) -> u32
    requires { (0 < bits) × (bits < 32) × (x < 2 ^ bits) }
    ensures { result ≡ extended bits x }
{
    if x < 1 << (bits - 1) {
        x
    } else {
        x + (0xffff_ffff - ((1 << bits) - 1))
    }
}

#[tactic(auto, using(crate::proofs::SignedOrder::below_signed_lem))]
pub fn below_signed(a: u32, b: u32) -> bool
    ensures { result ≡ below_signed a b }
{
    a.cast_signed() < b.cast_signed()
}
