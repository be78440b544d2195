// A thread: its registers, its place in the kernel's bytes and the steps it has taken. A method that changes it hands it back.
ghost use Rattle.std.specs.Prelude.{◌≡◌, ◌+◌, ◌%◌, ◌^◌, ◌<◌};
ghost use Rattle.kernel.specs.Registers.{scalar_of};
ghost use Rattle.kernel.specs.Thread.{started, written, written_vector, moved_to, advanced};

use crate::registers::Registers;
use memory::quad::Quad;
use words::arithmetic::add;

#[derive(Clone, Copy)]
pub struct Thread {
    pub registers: Registers,
    pub place: u32,
    pub steps: u32,
}

impl Thread {
    #[tactic(auto, unfolding(crate::specs::Thread::started))]
    pub fn start(group: u32, thread: u32, threads: u32, groups: u32) -> Self
        ensures { result ≡ started group thread threads groups }
    {
        Thread {
            registers: Registers::start(group, thread, threads, groups),
            place: 0,
            steps: 0,
        }
    }

    pub fn read(&self, n: u32) -> u32
        ensures { result ≡ scalar_of self.now.registers (n % 32) }
    {
        self.registers.scalar(n)
    }

    #[tactic(auto, unfolding(crate::specs::Thread::written))]
    pub fn write(mut self, n: u32, value: u32) -> Self
        ensures { result ≡ written self (n % 32) value }
    {
        self.registers = self.registers.with_scalar(n, value);
        self
    }

    #[tactic(auto, unfolding(crate::specs::Thread::written_vector))]
    pub fn write_vector(mut self, n: u32, quad: Quad) -> Self
        ensures { result ≡ written_vector self (n % 32) quad }
    {
        self.registers = self.registers.with_vector(n, quad);
        self
    }

    // One step taken, and the thread stands at `place`.
    #[tactic(auto, unfolding(crate::specs::Thread::moved_to))]
    pub fn move_to(mut self, place: u32) -> Self
        requires { self.steps + 1 < 2 ^ 32 }
        ensures { result ≡ moved_to self place }
    {
        self.place = place;
        self.steps += 1;
        self
    }

    // One step taken, and the thread stands at the next instruction.
    #[tactic(auto, unfolding(crate::specs::Thread::advanced))]
    pub fn advance(self) -> Self
        requires { self.steps + 1 < 2 ^ 32 }
        ensures { result ≡ advanced self }
    {
        self.move_to(add(self.place, 4))
    }
}
