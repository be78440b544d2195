// The fields of an instruction word, and the immediates of the RISC-V shapes.
ghost use Rattle.std.specs.Prelude.{◌≡◌};
ghost use Rattle.words.specs.Fields.{opcode_of, rd_of, funct3_of, rs1_of, rs2_of, funct7_of, funct6_of, bit25_of, imm_i, imm_s, imm_b, imm_u};

use crate::signed::extend;

pub fn opcode(w: u32) -> u32
    ensures { result ≡ opcode_of w }
{
    w % 128
}

pub fn rd(w: u32) -> u32
    ensures { result ≡ rd_of w }
{
    (w >> 7) % 32
}

pub fn funct3(w: u32) -> u32
    ensures { result ≡ funct3_of w }
{
    (w >> 12) % 8
}

pub fn rs1(w: u32) -> u32
    ensures { result ≡ rs1_of w }
{
    (w >> 15) % 32
}

pub fn rs2(w: u32) -> u32
    ensures { result ≡ rs2_of w }
{
    (w >> 20) % 32
}

pub fn funct7(w: u32) -> u32
    ensures { result ≡ funct7_of w }
{
    (w >> 25) % 128
}

pub fn funct6(w: u32) -> u32
    ensures { result ≡ funct6_of w }
{
    (w >> 26) % 64
}

pub fn bit25(w: u32) -> u32
    ensures { result ≡ bit25_of w }
{
    (w >> 25) % 2
}

pub fn imm_i(w: u32) -> u32
    ensures { result ≡ imm_i w }
{
    extend(12, (w >> 20) % 4096)
}

pub fn imm_s(w: u32) -> u32
    ensures { result ≡ imm_s w }
{
    extend(12, (w >> 25) % 128 * 32 + (w >> 7) % 32)
}

pub fn imm_b(w: u32) -> u32
    ensures { result ≡ imm_b w }
{
    extend(
        13,
        (w >> 31) % 2 * 4096 + (w >> 7) % 2 * 2048 + (w >> 25) % 64 * 32 + (w >> 8) % 16 * 2,
    )
}

pub fn imm_u(w: u32) -> u32
    ensures { result ≡ imm_u w }
{
    (w >> 12) % 0x10_0000 * 4096
}
