// One step of a thread.
ghost use Rattle.std.specs.Prelude.{◌≡◌, ◌+◌, ◌^◌, ◌<◌};
ghost use Rattle.kernel.specs.Step.{Shows, stops, goes_on, ends_thread, branched, after_store, applied, executed, step_of};

use crate::thread::Thread;
use instruction::decode::decode;
use instruction::effect::{Effect, effect_of};
use instruction::list::Instr;
use memory::access::store;
use memory::address::Outside;
use memory::quad::store_quad;
use pack::kernels::{Kernel, code_word};
use words::arithmetic::add;

// Why a thread stopped before its end.
#[derive(Clone, Copy, Debug, PartialEq, Eq)]
pub enum Stop {
    // The word is not in the instruction list.
    NotListed,
    // A taken branch out of the kernel or off a multiple of 4, or running off its end.
    OffTheKernel,
    // A load or store not wholly in the window, and the first address that is not inside.
    OutsideTheWindow(u32),
    // The thread already took the limit's steps.
    OutOfSteps,
}

#[derive(Clone, Copy, Debug, PartialEq, Eq)]
pub enum Progress {
    Running,
    Ended,
    Stopped(Stop),
}

#[derive(Clone, Copy)]
pub struct Stepped {
    pub thread: Thread,
    pub progress: Progress,
}

#[tactic(auto, unfolding(crate::specs::Step::stops))]
fn stopped(thread: Thread, why: Stop) -> Stepped
    ensures { result ≡ stops why thread }
{
    Stepped {
        thread,
        progress: Progress::Stopped(why),
    }
}

#[tactic(auto, unfolding(crate::specs::Step::goes_on))]
fn go_on(thread: Thread) -> Stepped
    requires { thread.steps + 1 < 2 ^ 32 }
    ensures { result ≡ goes_on thread }
{
    Stepped {
        thread: thread.advance(),
        progress: Progress::Running,
    }
}

#[tactic(auto, unfolding(crate::specs::Step::ends_thread))]
fn end(thread: Thread) -> Stepped
    requires { thread.steps + 1 < 2 ^ 32 }
    ensures { result ≡ ends_thread thread }
{
    Stepped {
        thread: thread.advance(),
        progress: Progress::Ended,
    }
}

#[tactic(auto, unfolding(crate::specs::Step::branched, crate::specs::Step::lands))]
fn branch(thread: Thread, offset: u32, length: usize) -> Stepped
    requires { thread.steps + 1 < 2 ^ 32 }
    ensures { result ≡ branched length offset thread }
{
    let place = add(thread.place, offset);
    if (place % 4 == 0) & ((place as usize) < length) {
        Stepped {
            thread: thread.move_to(place),
            progress: Progress::Running,
        }
    } else {
        stopped(thread, Stop::OffTheKernel)
    }
}

#[tactic(auto, unfolding(crate::specs::Step::after_store, memory::specs::Address::if_inside))]
fn after_store(thread: Thread, stored: Result<(), Outside>) -> Stepped
    requires { thread.steps + 1 < 2 ^ 32 }
    ensures { result ≡ after_store stored thread }
{
    match stored {
        Ok(()) => go_on(thread),
        Err(outside) => stopped(thread, Stop::OutsideTheWindow(outside.first)),
    }
}

#[tactic(auto, unfolding(crate::specs::Thread::written, crate::specs::Thread::written_vector, crate::specs::Step::applied))]
fn apply(thread: Thread, rd: u32, effect: Effect, length: usize, window: &mut [u8]) -> Stepped
    requires { (thread.steps + 1 < 2 ^ 32) × (rd < 32) }
    ensures { Shows result window.new (applied length rd effect thread window.old) }
{
    match effect {
        Effect::Put(x) => go_on(thread.write(rd, x)),
        Effect::PutQuad(vd, q) => go_on(thread.write_vector(vd, q)),
        Effect::Store(width, address, x) => after_store(thread, store(window, width, address, x)),
        Effect::StoreQuad(address, q) => after_store(thread, store_quad(window, address, q)),
        Effect::Go(offset) => branch(thread, offset, length),
        Effect::Next => go_on(thread),
        Effect::End => end(thread),
        Effect::NotListed => stopped(thread, Stop::NotListed),
        Effect::Outside(first) => stopped(thread, Stop::OutsideTheWindow(first)),
    }
}

#[tactic(auto, unfolding(crate::specs::Step::executed))]
fn execute(thread: Thread, instr: Instr, length: usize, window: &mut [u8]) -> Stepped
    requires { (thread.steps + 1 < 2 ^ 32) × (instr.rd < 32) × (instr.rs1 < 32) × (instr.rs2 < 32) }
    ensures { Shows result window.new (executed length instr thread window.old) }
{
    let x = thread.read(instr.rs1);
    let y = thread.read(instr.rs2);
    let effect = effect_of(instr.op, x, y, &thread.registers.vectors, window);
    apply(thread, instr.rd, effect, length, window)
}

#[tactic(auto, unfolding(crate::specs::Step::step_of, instruction::specs::Decode::decoded))]
pub fn step(thread: Thread, pack: &[u8], kernel: Kernel, window: &mut [u8], limit: u32) -> Stepped
    ensures { Shows result window.new (step_of limit pack.now kernel thread window.old) }
{
    if limit <= thread.steps {
        return stopped(thread, Stop::OutOfSteps);
    }
    if kernel.length <= thread.place as usize {
        return stopped(thread, Stop::OffTheKernel);
    }
    let instr = decode(code_word(pack, kernel, thread.place));
    execute(thread, instr, kernel.length, window)
}
