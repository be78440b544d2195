// What the operations give, on the values of their operands.
ghost use Rattle.std.specs.Prelude.{◌≡◌};
ghost use Rattle.instruction.specs.Meaning.{alu_of, unary_of, holds_of};

use crate::list::{AluOp, Cond, UnaryOp};
use words::{arithmetic, bitwise, compare, counts, signed};

#[tactic(auto, unfolding(crate::specs::Meaning::alu_of))]
pub fn alu(op: AluOp, x: u32, y: u32) -> u32
    ensures { result ≡ alu_of op x y }
{
    match op {
        AluOp::Add => arithmetic::add(x, y),
        AluOp::Sub => arithmetic::sub(x, y),
        AluOp::Mul => arithmetic::mul(x, y),
        AluOp::Shl => arithmetic::shl(x, y),
        AluOp::Lsr => arithmetic::lsr(x, y),
        AluOp::Asr => arithmetic::asr(x, y),
        AluOp::Min => arithmetic::min(x, y),
        AluOp::Max => arithmetic::max(x, y),
        AluOp::Xor => bitwise::xor(x, y),
        AluOp::Or => bitwise::or(x, y),
        AluOp::And => bitwise::and(x, y),
    }
}

#[tactic(auto, unfolding(crate::specs::Meaning::unary_of))]
pub fn unary(op: UnaryOp, x: u32) -> u32
    ensures { result ≡ unary_of op x }
{
    match op {
        UnaryOp::Abs => arithmetic::abs(x),
        UnaryOp::Clz => counts::clz(x),
        UnaryOp::Ctz => counts::ctz(x),
    }
}

#[tactic(auto, unfolding(crate::specs::Meaning::holds_of))]
pub fn holds(cond: Cond, x: u32, y: u32) -> bool
    ensures { result ≡ holds_of cond x y }
{
    match cond {
        Cond::Eq => compare::equal(x, y),
        Cond::Ne => compare::not_equal(x, y),
        Cond::Lt => signed::below_signed(x, y),
        Cond::Ge => compare::at_least_signed(x, y),
        Cond::Ltu => compare::below(x, y),
        Cond::Geu => compare::at_least(x, y),
    }
}
