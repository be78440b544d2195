// Vector registers of four words each.
ghost use Rattle.std.specs.Prelude.{◌≡◌, ◌%◌};
ghost use Rattle.instruction.specs.Vectors.{quad_of, with_quad, lanes_of_quads, broadcast};

use memory::quad::Quad;
use std::array::from_fn;
use words::lanes::{LaneOp, LaneType, lanes};

#[tactic(auto, unfolding(crate::specs::Vectors::quad_of))]
pub fn quad(vectors: &[Quad; 32], n: u32) -> Quad
    ensures { result ≡ quad_of vectors.now (n % 32) }
{
    vectors[(n % 32) as usize]
}

#[tactic(auto, unfolding(crate::specs::Vectors::with_quad))]
pub fn with_quad(mut vectors: [Quad; 32], n: u32, quad: Quad) -> [Quad; 32]
    ensures { result ≡ with_quad vectors (n % 32) quad }
{
    vectors[(n % 32) as usize] = quad;
    vectors
}

// With one call of `lanes` for the four words the compiler chooses the operation once.
#[tactic(auto, unfolding(crate::specs::Vectors::lanes_of_quads))]
pub fn lanes_of_quads(op: LaneOp, ty: LaneType, a: Quad, b: Quad) -> Quad
    ensures { result ≡ lanes_of_quads op ty a b }
{
    Quad {
        words: from_fn(|i| lanes(op, ty, a.words[i], b.words[i])),
    }
}

pub fn to_four_words(x: u32) -> Quad
    ensures { result ≡ broadcast x }
{
    Quad { words: [x; 4] }
}
