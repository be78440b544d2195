// One operation on each lane of a word.
ghost use Rattle.std.specs.Prelude.{◌≡◌};
ghost use Rattle.words.specs.Lanes.{lanes_of};

use crate::at_once;
use crate::products::products;

#[derive(Clone, Copy, Debug, PartialEq, Eq)]
pub enum LaneOp {
    Add,
    Sub,
    Xor,
    And,
    Or,
    Mul,
}

#[derive(Clone, Copy, Debug, PartialEq, Eq)]
pub enum LaneType {
    I32,
    I16,
    I8,
}

#[tactic(auto, unfolding(crate::specs::Lanes::lanes_of), using(crate::proofs::LaneTypes::whole_words))]
pub fn lanes(op: LaneOp, ty: LaneType, a: u32, b: u32) -> u32
    ensures { result ≡ lanes_of op ty a b }
{
    match op {
        // The type is named at each call, so that its mask is a constant.
        LaneOp::Add => match ty {
            LaneType::I32 => a.wrapping_add(b),
            LaneType::I16 => at_once::add(LaneType::I16, a, b),
            LaneType::I8 => at_once::add(LaneType::I8, a, b),
        },
        LaneOp::Sub => match ty {
            LaneType::I32 => a.wrapping_sub(b),
            LaneType::I16 => at_once::sub(LaneType::I16, a, b),
            LaneType::I8 => at_once::sub(LaneType::I8, a, b),
        },
        LaneOp::Xor => a ^ b,
        LaneOp::And => a & b,
        LaneOp::Or => a | b,
        LaneOp::Mul => match ty {
            LaneType::I32 => a.wrapping_mul(b),
            LaneType::I16 => products::<16>(a, b),
            LaneType::I8 => products::<8>(a, b),
        },
    }
}
