// A dispatch: its threads one after another, group 0 thread 0 first, each to its end.
ghost use Rattle.std.specs.Prelude.{◌≡◌, ◌*◌, ◌<◌};
ghost use Rattle.kernel.specs.Dispatch.{ShowsRan, ran_of, thread_of, dispatch_of};

use crate::run::run;
use crate::step::{Progress, Stop};
use crate::thread::Thread;
use pack::kernels::{Kernel, kernel_at};

// A thread's stop: why, where the thread stood, in bytes from the kernel's start, its group and its number in the group.
#[derive(Clone, Copy, Debug, PartialEq, Eq)]
pub struct ThreadStop {
    pub why: Stop,
    pub place: u32,
    pub group: u32,
    pub thread: u32,
}

// The threads of a dispatch: so many groups, of so many threads each.
#[derive(Clone, Copy, Debug, PartialEq, Eq)]
pub struct Grid {
    pub groups: u32,
    pub threads: u32,
}

#[tactic(auto, unfolding(crate::specs::Dispatch::ran_of))]
fn ran_of(progress: Progress, place: u32, group: u32, thread: u32) -> Result<(), ThreadStop>
    ensures { result ≡ ran_of progress place group thread }
{
    match progress {
        Progress::Running => Ok(()),
        Progress::Ended => Ok(()),
        Progress::Stopped(why) => Err(ThreadStop {
            why,
            place,
            group,
            thread,
        }),
    }
}

// Thread i of the dispatch, run on the window to its end or first stop.
#[tactic(auto, unfolding(crate::specs::Dispatch::thread_of, crate::specs::Dispatch::shown))]
fn run_thread(
    pack: &[u8],
    kernel: Kernel,
    grid: Grid,
    i: u64,
    limit: u32,
    window: &mut [u8],
) -> Result<(), ThreadStop>
    requires { i < grid.groups * grid.threads }
    ensures { ShowsRan result window.new (thread_of limit pack.now kernel grid.groups grid.threads i window.old) }
{
    let group = (i / grid.threads as u64) as u32;
    let thread = (i % grid.threads as u64) as u32;
    let start = Thread::start(group, thread, grid.threads, grid.groups);
    let end = run(start, pack, kernel, window, limit);
    ran_of(end.progress, end.thread.place, group, thread)
}

// Ok: each thread came to its end. Err: a thread stopped, and no thread after it ran.
#[tactic(auto, unfolding(crate::specs::Dispatch::dispatch_of))]
pub fn dispatch(
    pack: &[u8],
    k: u32,
    grid: Grid,
    limit: u32,
    window: &mut [u8],
) -> Result<(), ThreadStop>
    ensures { ShowsRan result window.new (dispatch_of limit pack.now k grid.groups grid.threads window.old) }
{
    let kernel = kernel_at(pack, k);
    let count = grid.groups as u64 * grid.threads as u64;
    for i in 0..count {
        run_thread(pack, kernel, grid, i, limit, window)?;
    }
    Ok(())
}
