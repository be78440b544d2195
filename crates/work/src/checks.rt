// Outcomes 5 to 10.
ghost use Rattle.std.specs.Prelude.{◌≡◌};
ghost use Rattle.work.specs.Checks.{slot_fault, misaligned, unframed, outside, unfit_frame, out_of_range, unfit_dispatch, check_of};

use crate::shape::{end_of, height, is_rectangle, too_narrow, width};
use command::frame::{Frame, not_a_multiple};
use command::header::Command;
use command::opcode::Opcode;
use command::outcome::{Fault, Outcome};
use command::table::row_of;
use pack::kernels::kernel_count;

// Outcome 5; `full` tells whether the command's slot is.
#[tactic(auto, unfolding(crate::specs::Checks::slot_fault))]
pub fn slot_fault(command: Command, full: bool) -> Outcome
    ensures { result ≡ slot_fault command full }
{
    if command.flags.emit() & full {
        return Err(Fault::SlotFull);
    }
    Ok(())
}

#[tactic(auto, unfolding(crate::specs::Checks::misaligned))]
fn is_misaligned(command: Command) -> bool
    ensures { result ≡ misaligned command }
{
    let row = row_of(command.opcode);
    let first = row.address0 & not_a_multiple(command.arg0);
    let second = row.address1 & not_a_multiple(command.arg1);
    let is_set_fb = command.opcode == Some(Opcode::SetFb);
    first | second | (is_set_fb & command.frame().is_misaligned())
}

#[tactic(auto, using(crate::proofs::RectangleBounds::width_fits), unfolding(crate::specs::Checks::unframed))]
fn is_unframed(command: Command, frame: Option<Frame>) -> bool
    ensures { result ≡ unframed command frame }
{
    let narrow = too_narrow(frame, width(command), height(command));
    is_rectangle(command.opcode) & narrow
}

#[tactic(auto, unfolding(crate::specs::Checks::outside))]
fn is_outside(command: Command, length: usize, frame: Option<Frame>) -> bool
    ensures { result ≡ outside command length frame }
{
    let row = row_of(command.opcode);
    let first = row.address0 & (length < end_of(command, frame, command.arg0));
    let second = row.address1 & (length < end_of(command, frame, command.arg1));
    let is_set_fb = command.opcode == Some(Opcode::SetFb);
    first | second | (is_set_fb & command.frame().is_outside(length))
}

#[tactic(auto, unfolding(crate::specs::Checks::unfit_frame))]
fn is_unfit_frame(command: Command) -> bool
    ensures { result ≡ unfit_frame command }
{
    (command.opcode == Some(Opcode::SetFb)) & command.frame().is_unfit()
}

#[tactic(auto, unfolding(crate::specs::Checks::out_of_range))]
fn is_out_of_range(count: u32) -> bool
    ensures { result ≡ out_of_range count }
{
    (count < 1) | (64 < count)
}

#[tactic(auto, unfolding(crate::specs::Checks::unfit_dispatch))]
fn is_unfit_dispatch(command: Command, pack: &[u8]) -> bool
    ensures { result ≡ unfit_dispatch command pack.now }
{
    let counts = is_out_of_range(command.arg0) | is_out_of_range(command.arg1);
    let unfit = counts | (kernel_count(pack) <= command.arg2);
    (command.opcode == Some(Opcode::Dispatch1d)) & unfit
}

// Outcomes 6 to 10: the smallest that applies.
#[tactic(auto, unfolding(crate::specs::Checks::check_of))]
pub fn check(command: Command, length: usize, frame: Option<Frame>, pack: &[u8]) -> Outcome
    ensures { result ≡ check_of command length frame pack.now }
{
    let misaligned = is_misaligned(command);
    let unframed = is_unframed(command, frame);
    let outside = is_outside(command, length, frame);
    let unfit_frame = is_unfit_frame(command);
    let unfit_dispatch = is_unfit_dispatch(command, pack);
    if misaligned {
        return Err(Fault::Misaligned);
    }
    if unframed {
        return Err(Fault::NoFrame);
    }
    if outside {
        return Err(Fault::OutsideTheWindow);
    }
    if unfit_frame {
        return Err(Fault::BadFrame);
    }
    if unfit_dispatch {
        return Err(Fault::BadDispatch);
    }
    Ok(())
}
