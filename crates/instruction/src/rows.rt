// The rows of the instruction table, each on the fields that it names.
ghost use Rattle.std.specs.Prelude.{◌≡◌};
ghost use Rattle.instruction.specs.Rows.{plain_row, other_row, product_row, count_row, scalar_row, immediate_row, cond_by, branch_row, width_by, load_row, store_row, system_row, lane_type_by, lane_row, vector_row, transfer_row, vld_row, vst_row};

use crate::list::{AluOp, Cond, Op, UnaryOp};
use memory::access::Width;
use words::lanes::{LaneOp, LaneType};

#[tactic(auto, unfolding(crate::specs::Rows::plain_row))]
fn plain_row(funct3: u32, rs2: u32) -> Op
    ensures { result ≡ plain_row funct3 rs2 }
{
    match funct3 {
        0 => Op::Alu(AluOp::Add),
        1 => {
            if rs2 == 0 {
                Op::Unary(UnaryOp::Abs)
            } else {
                Op::Alu(AluOp::Shl)
            }
        }
        2 => Op::Alu(AluOp::Min),
        3 => Op::Alu(AluOp::Max),
        4 => Op::Alu(AluOp::Xor),
        5 => Op::Alu(AluOp::Lsr),
        6 => Op::Alu(AluOp::Or),
        7 => Op::Alu(AluOp::And),
        _ => Op::Unlisted,
    }
}

#[tactic(auto, unfolding(crate::specs::Rows::other_row))]
fn other_row(funct3: u32) -> Op
    ensures { result ≡ other_row funct3 }
{
    match funct3 {
        0 => Op::Alu(AluOp::Sub),
        5 => Op::Alu(AluOp::Asr),
        _ => Op::Unlisted,
    }
}

#[tactic(auto, unfolding(crate::specs::Rows::product_row))]
fn product_row(funct3: u32) -> Op
    ensures { result ≡ product_row funct3 }
{
    match funct3 {
        0 => Op::Alu(AluOp::Mul),
        _ => Op::Unlisted,
    }
}

#[tactic(auto, unfolding(crate::specs::Rows::count_row))]
fn count_row(funct3: u32) -> Op
    ensures { result ≡ count_row funct3 }
{
    match funct3 {
        0 => Op::Unary(UnaryOp::Clz),
        1 => Op::Unary(UnaryOp::Ctz),
        _ => Op::Unlisted,
    }
}

#[tactic(auto, unfolding(crate::specs::Rows::scalar_row))]
pub fn scalar_row(funct7: u32, funct3: u32, rs2: u32) -> Op
    ensures { result ≡ scalar_row funct7 funct3 rs2 }
{
    match funct7 {
        0 => plain_row(funct3, rs2),
        32 => other_row(funct3),
        1 => product_row(funct3),
        3 => count_row(funct3),
        _ => Op::Unlisted,
    }
}

#[tactic(auto, unfolding(crate::specs::Rows::immediate_row))]
pub fn immediate_row(funct3: u32, high: u32, shamt: u32, imm: u32) -> Op
    ensures { result ≡ immediate_row funct3 high shamt imm }
{
    match funct3 {
        0 => Op::AluImm(AluOp::Add, imm),
        4 => Op::AluImm(AluOp::Xor, imm),
        6 => Op::AluImm(AluOp::Or, imm),
        7 => Op::AluImm(AluOp::And, imm),
        1 => {
            if high == 0 {
                Op::AluImm(AluOp::Shl, shamt)
            } else {
                Op::Unlisted
            }
        }
        5 => {
            if high == 0 {
                Op::AluImm(AluOp::Lsr, shamt)
            } else if high == 32 {
                Op::AluImm(AluOp::Asr, shamt)
            } else {
                Op::Unlisted
            }
        }
        _ => Op::Unlisted,
    }
}

#[tactic(auto, unfolding(crate::specs::Rows::cond_by))]
fn cond(funct3: u32) -> Option<Cond>
    ensures { result ≡ cond_by funct3 }
{
    match funct3 {
        0 => Some(Cond::Eq),
        1 => Some(Cond::Ne),
        4 => Some(Cond::Lt),
        5 => Some(Cond::Ge),
        6 => Some(Cond::Ltu),
        7 => Some(Cond::Geu),
        _ => None,
    }
}

#[tactic(auto, unfolding(crate::specs::Rows::listed, crate::specs::Rows::branch_row))]
pub fn branch_row(funct3: u32, offset: u32) -> Op
    ensures { result ≡ branch_row funct3 offset }
{
    cond(funct3).map_or(Op::Unlisted, |cond| Op::Branch(cond, offset))
}

#[tactic(auto, unfolding(crate::specs::Rows::width_by))]
fn width(funct3: u32) -> Option<Width>
    ensures { result ≡ width_by funct3 }
{
    match funct3 {
        0 => Some(Width::Byte),
        1 => Some(Width::Half),
        2 => Some(Width::Word),
        _ => None,
    }
}

#[tactic(auto, unfolding(crate::specs::Rows::listed, crate::specs::Rows::load_row))]
pub fn load_row(funct3: u32, imm: u32) -> Op
    ensures { result ≡ load_row funct3 imm }
{
    width(funct3).map_or(Op::Unlisted, |width| Op::Load(width, imm))
}

#[tactic(auto, unfolding(crate::specs::Rows::listed, crate::specs::Rows::store_row))]
pub fn store_row(funct3: u32, imm: u32) -> Op
    ensures { result ≡ store_row funct3 imm }
{
    width(funct3).map_or(Op::Unlisted, |width| Op::Store(width, imm))
}

#[tactic(auto, unfolding(crate::specs::Rows::system_row))]
pub fn system_row(w: u32) -> Op
    ensures { result ≡ system_row w }
{
    match w {
        0x0000_000f => Op::Membar,
        0x0000_700f => Op::Wfi,
        _ => Op::Unlisted,
    }
}

#[tactic(auto, unfolding(crate::specs::Rows::lane_type_by))]
fn lane_type(funct3: u32) -> Option<LaneType>
    ensures { result ≡ lane_type_by funct3 }
{
    match funct3 {
        0 => Some(LaneType::I32),
        1 => Some(LaneType::I16),
        2 => Some(LaneType::I8),
        _ => None,
    }
}

#[tactic(auto, unfolding(crate::specs::Rows::listed, crate::specs::Rows::lane_row))]
fn lane_row(op: LaneOp, funct3: u32, vd: u32, v1: u32, v2: u32) -> Op
    ensures { result ≡ lane_row op funct3 vd v1 v2 }
{
    lane_type(funct3).map_or(Op::Unlisted, |ty| Op::Vector { op, ty, vd, v1, v2 })
}

#[tactic(auto, unfolding(crate::specs::Rows::vector_row))]
pub fn vector_row(funct6: u32, funct3: u32, vd: u32, v1: u32, v2: u32) -> Op
    ensures { result ≡ vector_row funct6 funct3 vd v1 v2 }
{
    match funct6 {
        0 => lane_row(LaneOp::Add, funct3, vd, v1, v2),
        1 => lane_row(LaneOp::Sub, funct3, vd, v1, v2),
        9 => lane_row(LaneOp::Xor, funct3, vd, v1, v2),
        10 => lane_row(LaneOp::And, funct3, vd, v1, v2),
        11 => lane_row(LaneOp::Or, funct3, vd, v1, v2),
        12 => lane_row(LaneOp::Mul, funct3, vd, v1, v2),
        _ => Op::Unlisted,
    }
}

#[tactic(auto, unfolding(crate::specs::Rows::transfer_row))]
pub fn transfer_row(funct3: u32, rd: u32, rs1: u32) -> Op
    ensures { result ≡ transfer_row funct3 rd rs1 }
{
    match funct3 {
        0 => Op::Vbcast { vd: rd },
        2 => Op::Vextr { v1: rs1 },
        _ => Op::Unlisted,
    }
}

#[tactic(auto, unfolding(crate::specs::Rows::vld_row))]
pub fn vld_row(funct3: u32, rd: u32) -> Op
    ensures { result ≡ vld_row funct3 rd }
{
    match funct3 {
        0 => Op::Vld { vd: rd },
        _ => Op::Unlisted,
    }
}

#[tactic(auto, unfolding(crate::specs::Rows::vst_row))]
pub fn vst_row(funct3: u32, rs2: u32) -> Op
    ensures { result ≡ vst_row funct3 rs2 }
{
    match funct3 {
        0 => Op::Vst { v2: rs2 },
        _ => Op::Unlisted,
    }
}
