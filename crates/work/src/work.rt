// The work of the commands, on the ring's window, the pipe and the frame.
ghost use Rattle.std.specs.Prelude.{◌≡◌, true, false, ◌+◌, ◌*◌, ◌≤◌, length};
ghost use Rattle.memory.specs.Rectangle.{rectangle_end, RowsApart, filled};
ghost use Rattle.memory.specs.Copy.{blitted};
ghost use Rattle.command.specs.Frame.{stride_of};
ghost use Rattle.work.specs.Shape.{width_of, height_of};
ghost use Rattle.work.specs.Checks.{unframed, outside};
ghost use Rattle.command.specs.Table.{row_of};
ghost use Rattle.work.specs.Work.{Shows, without_stop, stop_outcome, ran_outcome, ran_as, dispatched_by, work_of};

use crate::shape::rectangle;
use command::frame::Frame;
use command::header::Command;
use command::opcode::Opcode;
use command::outcome::{Fault, Outcome};
use kernel::dispatch::{Grid, ThreadStop, dispatch};
use kernel::site::{Site, site_of};
use kernel::step::Stop;
use memory::copy;
use memory::rectangle::fill;
use memory::transfer::{read_words, write_words};

#[derive(Clone, Copy, Debug, PartialEq, Eq)]
pub struct Performed {
    pub outcome: Outcome,
    pub frame: Option<Frame>,
    // Where a thread stopped, if one did.
    pub site: Site,
}

impl Performed {
    pub fn without_stop(outcome: Outcome, frame: Option<Frame>) -> Self
        ensures { result ≡ without_stop outcome frame }
    {
        Performed {
            outcome,
            frame,
            site: Site::none(),
        }
    }
}

#[tactic(auto, unfolding(crate::specs::Work::stop_outcome))]
fn stop_outcome(why: Stop) -> Fault
    ensures { result ≡ stop_outcome why }
{
    match why {
        Stop::NotListed => Fault::NotListed,
        Stop::OffTheKernel => Fault::OffTheKernel,
        Stop::OutsideTheWindow(_) => Fault::AccessOutside,
        Stop::OutOfSteps => Fault::OutOfSteps,
    }
}

#[tactic(auto, unfolding(crate::specs::Work::ran_outcome))]
fn ran_outcome(ran: Result<(), ThreadStop>) -> Outcome
    ensures { result ≡ ran_outcome ran }
{
    ran.map_err(|stop| stop_outcome(stop.why))
}

fn fill_rect(command: Command, window: &mut [u8], frame: Option<Frame>)
    requires { rectangle_end command.arg0 (stride_of frame) (width_of command) (height_of command) ≤ length window.old }
    ensures { window.new ≡ filled command.arg0 (stride_of frame) (width_of command) (height_of command) command.arg2 window.old }
{
    let to = command.arg0 as usize;
    fill(window, to, rectangle(command, frame), command.arg2);
}

fn blit_rect(command: Command, window: &mut [u8], frame: Option<Frame>)
    requires { (rectangle_end command.arg0 (stride_of frame) (width_of command) (height_of command) ≤ length window.old) × (rectangle_end command.arg1 (stride_of frame) (width_of command) (height_of command) ≤ length window.old) × RowsApart (stride_of frame) (width_of command) (height_of command) }
    ensures { window.new ≡ blitted command.arg0 command.arg1 (stride_of frame) (width_of command) (height_of command) window.old }
{
    let to = command.arg0 as usize;
    let from = command.arg1 as usize;
    copy::blit(window, to, from, rectangle(command, frame));
}

#[tactic(auto, unfolding(crate::specs::Work::ran_as, crate::specs::Work::dispatched_by))]
fn run(
    command: Command,
    window: &mut [u8],
    frame: Option<Frame>,
    pack: &[u8],
    limit: u32,
) -> Performed
    ensures { (result ≡ ran_as frame (dispatched_by command limit pack.now window.old).ran) × (window.new ≡ (dispatched_by command limit pack.now window.old).window) }
{
    let grid = Grid {
        groups: command.arg0,
        threads: command.arg1,
    };
    let ran = dispatch(pack, command.arg2, grid, limit, window);
    Performed {
        outcome: ran_outcome(ran),
        frame,
        site: site_of(ran),
    }
}

#[tactic(auto, using(crate::proofs::Inside::write_inside, crate::proofs::Inside::read_inside, crate::proofs::Inside::copy_inside, crate::proofs::Inside::fill_inside, crate::proofs::Inside::blit_inside, crate::proofs::Inside::blit_rows_apart), unfolding(command::specs::Table::row_of, crate::specs::Work::after_dispatch, crate::specs::Work::leaves, crate::specs::Work::work_by, crate::specs::Work::work_of))]
pub fn work(
    command: Command,
    ring: &[u8],
    window: &mut [u8],
    frame: Option<Frame>,
    pack: &[u8],
    pipe: &mut [u8],
    limit: u32,
) -> Performed
    requires { (unframed command frame ≡ false) × (outside command (length window.old) frame ≡ false) × ((row_of command.opcode).payload ≡ true → command.payload + 4 * command.len ≤ length ring.now) × (1020 ≤ length pipe.old) }
    ensures { Shows result window.new pipe.new (work_of command ring.now window.old frame pack.now pipe.old limit) }
{
    let done = Performed::without_stop(Ok(()), frame);
    let to = command.arg0 as usize;
    let words = command.len as usize;
    match command.opcode {
        Some(Opcode::WriteMem) => write_words(window, to, ring, command.payload, words),
        Some(Opcode::ReadMem) => read_words(window, to, words, pipe),
        Some(Opcode::FillRect) => fill_rect(command, window, frame),
        Some(Opcode::Blit) => blit_rect(command, window, frame),
        Some(Opcode::CopyBuffer) => copy::copy(window, to, command.arg1 as usize, words),
        Some(Opcode::Dispatch1d) => return run(command, window, frame, pack, limit),
        Some(Opcode::SetFb) => return Performed::without_stop(Ok(()), Some(command.frame())),
        Some(Opcode::Barrier) => {}
        None => {}
    }
    done
}
