// The register file: 32 scalar registers, s0 always reads 0, and 32 of four words each.
ghost use Rattle.std.specs.Prelude.{◌≡◌, ◌%◌};
ghost use Rattle.kernel.specs.Registers.{start_registers, scalar_of, with_scalar, with_vector};

use instruction::vectors::{to_four_words, with_quad};
use memory::quad::Quad;

#[derive(Clone, Copy)]
pub struct Registers {
    pub scalars: [u32; Registers::COUNT],
    pub vectors: [Quad; Registers::COUNT],
}

impl Registers {
    // How many scalar registers there are, and as many vector registers.
    pub const COUNT: usize = 32;
    // The input registers: s1 group, s2 thread in the group, s3 threads in a group, s4 groups.
    pub const GROUP: usize = 1;

    pub const THREAD: usize = 2;

    pub const THREADS: usize = 3;

    pub const GROUPS: usize = 4;

    #[tactic(auto, unfolding(crate::specs::Registers::start_registers))]
    pub fn start(group: u32, thread: u32, threads: u32, groups: u32) -> Self
        ensures { result ≡ start_registers group thread threads groups }
    {
        let mut scalars = [0u32; Registers::COUNT];
        scalars[Registers::GROUP] = group;
        scalars[Registers::THREAD] = thread;
        scalars[Registers::THREADS] = threads;
        scalars[Registers::GROUPS] = groups;
        Registers {
            scalars,
            vectors: [to_four_words(0); Registers::COUNT],
        }
    }

    #[tactic(auto, unfolding(crate::specs::Registers::scalar_of))]
    pub fn scalar(&self, n: u32) -> u32
        ensures { result ≡ scalar_of self.now (n % 32) }
    {
        let at = n as usize % Registers::COUNT;
        if at == 0 { 0 } else { self.scalars[at] }
    }

    #[tactic(auto, unfolding(crate::specs::Registers::with_scalar))]
    pub fn with_scalar(mut self, n: u32, value: u32) -> Self
        ensures { result ≡ with_scalar self (n % 32) value }
    {
        let at = n as usize % Registers::COUNT;
        self.scalars[at] = value;
        self
    }

    #[tactic(auto, unfolding(crate::specs::Registers::with_vector))]
    pub fn with_vector(mut self, n: u32, quad: Quad) -> Self
        ensures { result ≡ with_vector self (n % 32) quad }
    {
        self.vectors = with_quad(self.vectors, n, quad);
        self
    }
}
