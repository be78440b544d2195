// Header faults, outcomes 1 to 4.
ghost use Rattle.std.specs.Prelude.{◌≡◌};
ghost use Rattle.command.specs.Faults.{unknown_opcode, wrong_payload_bit, no_such_slot, header_fault};

use crate::header::Command;
use crate::outcome::{Fault, Outcome};
use crate::table::row_of;

#[tactic(auto, unfolding(crate::specs::Faults::unknown_opcode))]
fn is_unknown(command: Command) -> bool
    ensures { result ≡ unknown_opcode command }
{
    command.opcode.is_none()
}

#[tactic(auto, unfolding(crate::specs::Faults::wrong_payload_bit))]
fn has_wrong_payload_bit(command: Command) -> bool
    ensures { result ≡ wrong_payload_bit command }
{
    let row = row_of(command.opcode);
    command.flags.payload() ^ row.payload
}

#[tactic(auto, unfolding(crate::specs::Faults::no_such_slot))]
fn names_no_slot(command: Command) -> bool
    ensures { result ≡ no_such_slot command }
{
    let uses_slot = command.flags.emit() | command.flags.wait();
    uses_slot & (63 < command.rdst)
}

// The smallest that applies.
#[tactic(auto, unfolding(crate::specs::Faults::header_fault))]
pub fn header_fault(command: Command) -> Outcome
    ensures { result ≡ header_fault command }
{
    if is_unknown(command) {
        return Err(Fault::UnknownOpcode);
    }
    if command.flags.reserved() {
        return Err(Fault::ReservedFlag);
    }
    if has_wrong_payload_bit(command) {
        return Err(Fault::WrongPayloadBit);
    }
    if names_no_slot(command) {
        return Err(Fault::NoSuchSlot);
    }
    Ok(())
}
