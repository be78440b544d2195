// From a word to what it stands for.
ghost use Rattle.std.specs.Prelude.{◌≡◌};
ghost use Rattle.instruction.specs.Decode.{unused_is0, vector_of, transfer_of, vld_of, vst_of, op_of, decoded};

use crate::list::{Instr, Op};
use crate::rows;
use words::fields::{
    bit25, funct3, funct6, funct7, imm_b, imm_i, imm_s, imm_u, opcode, rd, rs1, rs2,
};

#[tactic(auto, unfolding(crate::specs::Decode::unused_is0))]
fn if_unused(unused: u32, op: Op) -> Op
    ensures { result ≡ unused_is0 unused op }
{
    if unused == 0 { op } else { Op::Unlisted }
}

#[tactic(auto, unfolding(crate::specs::Decode::vector_of))]
fn vector(w: u32) -> Op
    ensures { result ≡ vector_of w }
{
    let op = rows::vector_row(funct6(w), funct3(w), rd(w), rs1(w), rs2(w));
    if_unused(bit25(w), op)
}

#[tactic(auto, unfolding(crate::specs::Decode::transfer_of))]
fn transfer(w: u32) -> Op
    ensures { result ≡ transfer_of w }
{
    let op = rows::transfer_row(funct3(w), rd(w), rs1(w));
    if_unused(funct7(w), if_unused(rs2(w), op))
}

#[tactic(auto, unfolding(crate::specs::Decode::vld_of))]
fn vld(w: u32) -> Op
    ensures { result ≡ vld_of w }
{
    let op = rows::vld_row(funct3(w), rd(w));
    if_unused(funct7(w), if_unused(rs2(w), op))
}

#[tactic(auto, unfolding(crate::specs::Decode::vst_of))]
fn vst(w: u32) -> Op
    ensures { result ≡ vst_of w }
{
    let op = rows::vst_row(funct3(w), rs2(w));
    if_unused(funct7(w), if_unused(rd(w), op))
}

#[tactic(auto, unfolding(crate::specs::Decode::op_of))]
fn operation(w: u32) -> Op
    ensures { result ≡ op_of w }
{
    match opcode(w) {
        0b0001011 => rows::scalar_row(funct7(w), funct3(w), rs2(w)),
        0b0010111 => rows::immediate_row(funct3(w), funct7(w), rs2(w), imm_i(w)),
        0b0110111 => Op::Lui(imm_u(w)),
        0b0001110 => rows::branch_row(funct3(w), imm_b(w)),
        0b0001100 => rows::load_row(funct3(w), imm_i(w)),
        0b0001101 => rows::store_row(funct3(w), imm_s(w)),
        0b0001111 => rows::system_row(w),
        0b0101111 => vector(w),
        0b0010000 => transfer(w),
        0b0010001 => vld(w),
        0b0010010 => vst(w),
        _ => Op::Unlisted,
    }
}

#[tactic(auto, unfolding(crate::specs::Decode::decoded))]
pub fn decode(w: u32) -> Instr
    ensures { result ≡ decoded w }
{
    Instr {
        op: operation(w),
        rd: rd(w),
        rs1: rs1(w),
        rs2: rs2(w),
    }
}
