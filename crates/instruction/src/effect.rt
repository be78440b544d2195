// What an instruction does, from the values of its operands. An effect names no scalar register and holds no memory.
ghost use Rattle.std.specs.Prelude.{◌≡◌};
ghost use Rattle.instruction.specs.Effect.{loaded_effect, loaded_quad_effect, branch_effect, effect_of};

use crate::list::{Cond, Op};
use crate::meaning::{alu, holds, unary};
use crate::vectors::{lanes_of_quads, quad, to_four_words};
use memory::access::{Width, load};
use memory::address::Outside;
use memory::quad::{Quad, load_quad};
use words::arithmetic::add;

#[derive(Clone, Copy, Debug, PartialEq, Eq)]
pub enum Effect {
    // To scalar rd.
    Put(u32),
    // To a vector register.
    PutQuad(u32, Quad),
    // A store at an address.
    Store(Width, u32, u32),
    StoreQuad(u32, Quad),
    // A taken branch, by an offset in bytes.
    Go(u32),
    // On to the next instruction.
    Next,
    // The thread's end.
    End,
    // The word is not in the list.
    NotListed,
    // A load not wholly in the window, and the first address that is not inside.
    Outside(u32),
}

#[tactic(auto, unfolding(crate::specs::Effect::loaded_effect))]
fn loaded_effect(loaded: Result<u32, Outside>) -> Effect
    ensures { result ≡ loaded_effect loaded }
{
    match loaded {
        Ok(x) => Effect::Put(x),
        Err(outside) => Effect::Outside(outside.first),
    }
}

#[tactic(auto, unfolding(crate::specs::Effect::loaded_quad_effect))]
fn loaded_quad_effect(vd: u32, loaded: Result<Quad, Outside>) -> Effect
    ensures { result ≡ loaded_quad_effect vd loaded }
{
    match loaded {
        Ok(q) => Effect::PutQuad(vd, q),
        Err(outside) => Effect::Outside(outside.first),
    }
}

#[tactic(auto, unfolding(crate::specs::Effect::branch_effect))]
fn branch_effect(cond: Cond, offset: u32, x: u32, y: u32) -> Effect
    ensures { result ≡ branch_effect cond offset x y }
{
    if holds(cond, x, y) {
        Effect::Go(offset)
    } else {
        Effect::Next
    }
}

// x is rs1's value and y is rs2's.
#[tactic(auto, unfolding(crate::specs::Effect::effect_of))]
pub fn effect_of(op: Op, x: u32, y: u32, vectors: &[Quad; 32], window: &[u8]) -> Effect
    ensures { result ≡ effect_of op x y vectors.now window.now }
{
    match op {
        Op::Alu(o) => Effect::Put(alu(o, x, y)),
        Op::Unary(o) => Effect::Put(unary(o, x)),
        Op::AluImm(o, imm) => Effect::Put(alu(o, x, imm)),
        Op::Lui(imm) => Effect::Put(imm),
        Op::Branch(cond, offset) => branch_effect(cond, offset, x, y),
        Op::Load(width, imm) => loaded_effect(load(window, width, add(x, imm))),
        Op::Store(width, imm) => Effect::Store(width, add(x, imm), y),
        Op::Membar => Effect::Next,
        Op::Wfi => Effect::End,
        Op::Vector { op, ty, vd, v1, v2 } => {
            Effect::PutQuad(
                vd,
                lanes_of_quads(op, ty, quad(vectors, v1), quad(vectors, v2)),
            )
        }
        Op::Vbcast { vd } => Effect::PutQuad(vd, to_four_words(x)),
        Op::Vextr { v1 } => Effect::Put(quad(vectors, v1).words[0]),
        Op::Vld { vd } => loaded_quad_effect(vd, load_quad(window, x)),
        Op::Vst { v2 } => Effect::StoreQuad(x, quad(vectors, v2)),
        Op::Unlisted => Effect::NotListed,
    }
}
