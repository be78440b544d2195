// Sums and differences of all lanes of a word at once. The top bit of each lane is held back, so that nothing is carried or
// borrowed between lanes, and put in by xor.
ghost use Rattle.std.specs.Prelude.{◌≡◌, ◌-◌, ◌^◌};
ghost use Rattle.words.specs.Lanes.{lane_bits, lane_count, lanewise, lanes_of};

use crate::lanes::{LaneOp, LaneType};

// In each lane all bits but the top one.
#[tactic(auto, unfolding(crate::specs::Lanes::lanewise))]
fn below_tops(ty: LaneType) -> u32
    ensures { result ≡ lanewise (λ _ _. 2 ^ (lane_bits ty - 1) - 1) (lane_bits ty) (lane_count ty) 0 0 }
{
    match ty {
        LaneType::I32 => 0x7fff_ffff,
        LaneType::I16 => 0x7fff_7fff,
        LaneType::I8 => 0x7f7f_7f7f,
    }
}

pub fn add(ty: LaneType, a: u32, b: u32) -> u32
    ensures { result ≡ lanes_of LaneOp.Add ty a b }
{
    let below = below_tops(ty);
    let tops = 0xffff_ffff - below;
    ((a & below) + (b & below)) ^ ((a ^ b) & tops)
}

// Each lane of `a` is lent a top bit, its own being held back, so that it need not borrow; the last xor takes it back.
pub fn sub(ty: LaneType, a: u32, b: u32) -> u32
    ensures { result ≡ lanes_of LaneOp.Sub ty a b }
{
    let below = below_tops(ty);
    let tops = 0xffff_ffff - below;
    ((a | tops) - (b & below)) ^ ((a ^ b) & tops) ^ tops
}
