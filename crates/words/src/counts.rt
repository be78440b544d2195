// Counts of clear bits at either end of a word.
ghost use Rattle.std.specs.Prelude.{◌≡◌};
ghost use Rattle.words.specs.Counts.{clz_of, ctz_of};

#[tactic(auto, using(crate::proofs::CountLaws::leading_first))]
pub fn clz(x: u32) -> u32
    ensures { result ≡ clz_of x }
{
    x.leading_zeros()
}

#[tactic(auto, using(crate::proofs::CountLaws::trailing_first))]
pub fn ctz(x: u32) -> u32
    ensures { result ≡ ctz_of x }
{
    x.trailing_zeros()
}
