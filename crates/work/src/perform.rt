// A command performed: its faults in order, and its work if there is none.
ghost use Rattle.std.specs.Prelude.{◌≡◌};
ghost use Rattle.work.specs.Work.{Shows};
ghost use Rattle.work.specs.Perform.{Lent, fault_of, performed_of};

use crate::checks::{check, slot_fault};
use crate::work::{Performed, work};
use command::faults::header_fault;
use command::frame::Frame;
use command::header::Command;
use command::outcome::Outcome;

#[tactic(auto, unfolding(crate::specs::Perform::fault_of, crate::specs::Perform::or_else))]
fn fault(command: Command, full: bool, length: usize, frame: Option<Frame>, pack: &[u8]) -> Outcome
    ensures { result ≡ fault_of command full length frame pack.now }
{
    header_fault(command)?;
    slot_fault(command, full)?;
    check(command, length, frame, pack)
}

// `full` tells whether the command's slot is, and `limit` is the steps of a thread.
#[tactic(auto, unfolding(crate::specs::Work::leaves, crate::specs::Perform::performed_of, crate::specs::Perform::guarded))]
pub fn perform(
    command: Command,
    full: bool,
    ring: &[u8],
    window: &mut [u8],
    frame: Option<Frame>,
    pack: &[u8],
    pipe: &mut [u8],
    limit: u32,
) -> Performed
    requires { Lent command ring.now pipe.old }
    ensures { Shows result window.new pipe.new (performed_of command full ring.now window.old frame pack.now pipe.old limit) }
{
    match fault(command, full, window.len(), frame, pack) {
        Ok(()) => work(command, ring, window, frame, pack, pipe, limit),
        Err(fault) => Performed::without_stop(Err(fault), frame),
    }
}
