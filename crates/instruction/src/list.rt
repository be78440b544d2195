// The types of the instruction list. An operation holds its immediates and vector register numbers;
// the numbers of the scalar registers stand beside it, so that the same operation can run over any registers.
use memory::access::Width;
use words::lanes::{LaneOp, LaneType};

#[derive(Clone, Copy, Debug, PartialEq, Eq)]
pub enum AluOp {
    Add,
    Sub,
    Mul,
    Shl,
    Lsr,
    Asr,
    Min,
    Max,
    Xor,
    Or,
    And,
}

#[derive(Clone, Copy, Debug, PartialEq, Eq)]
pub enum UnaryOp {
    Abs,
    Clz,
    Ctz,
}

#[derive(Clone, Copy, Debug, PartialEq, Eq)]
pub enum Cond {
    Eq,
    Ne,
    Lt,
    Ge,
    Ltu,
    Geu,
}

#[derive(Clone, Copy, Debug, PartialEq, Eq)]
pub enum Op {
    // rd is the operation of rs1 and rs2.
    Alu(AluOp),
    // rd is the operation of rs1 alone.
    Unary(UnaryOp),
    // rd is the operation of rs1 and the immediate.
    AluImm(AluOp, u32),
    Lui(u32),
    Branch(Cond, u32),
    Load(Width, u32),
    Store(Width, u32),
    Membar,
    Wfi,
    Vector {
        op: LaneOp,
        ty: LaneType,
        vd: u32,
        v1: u32,
        v2: u32,
    },
    Vbcast {
        vd: u32,
    },
    Vextr {
        v1: u32,
    },
    Vld {
        vd: u32,
    },
    Vst {
        v2: u32,
    },
    // A word that is not in the list.
    Unlisted,
}

#[derive(Clone, Copy, Debug, PartialEq, Eq)]
pub struct Instr {
    pub op: Op,
    pub rd: u32,
    pub rs1: u32,
    pub rs2: u32,
}
