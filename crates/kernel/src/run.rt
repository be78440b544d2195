// A thread's run: its steps one after another, to its end or first stop.
ghost use Rattle.kernel.specs.Step.{Shows};
ghost use Rattle.kernel.specs.Run.{run_of};

use crate::step::{Progress, Stepped, step};
use crate::thread::Thread;
use pack::kernels::Kernel;

pub fn run(thread: Thread, pack: &[u8], kernel: Kernel, window: &mut [u8], limit: u32) -> Stepped
    ensures { Shows result window.new (run_of limit pack.now kernel thread window.old) }
{
    let mut at = thread;
    for _ in 0..=limit {
        let next = step(at, pack, kernel, window, limit);
        match next.progress {
            Progress::Running => at = next.thread,
            Progress::Ended => return next,
            Progress::Stopped(_) => return next,
        }
    }
    Stepped {
        thread: at,
        progress: Progress::Running,
    }
}
