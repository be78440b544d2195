// 32-bit numbers that go up by one, and from 4,294,967,295 round to 0.
ghost use Rattle.std.specs.Prelude.{◌≡◌};
ghost use Rattle.state.specs.PlusOne.{plus_one, plus_one_at};

pub fn plus_one(n: u32) -> u32
    ensures { result ≡ plus_one n }
{
    if n < 0xffff_ffff { n + 1 } else { 0 }
}

// One place changes, n; where there is no such place, none.
#[tactic(auto, unfolding(crate::specs::PlusOne::plus_one_at))]
pub fn plus_one_at(numbers: &mut [u32], n: usize)
    ensures { numbers.new ≡ plus_one_at numbers.old n }
{
    if n < numbers.len() {
        numbers[n] = plus_one(numbers[n]);
    }
}
