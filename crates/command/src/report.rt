// What a command and its outcome make a turn report.
ghost use Rattle.std.specs.Prelude.{◌≡◌};
ghost use Rattle.command.specs.Report.{emits, interrupts, words_read};

use crate::header::Command;
use crate::opcode::Opcode;
use crate::outcome::{Outcome, number};

// Whether it adds 1 to its slot.
#[tactic(auto, unfolding(crate::specs::Report::emits))]
pub fn emits_fence(command: Command, outcome: Outcome) -> bool
    ensures { result ≡ emits command outcome }
{
    command.flags.emit() & (outcome.is_ok() | (6 <= number(outcome)))
}

// Whether it raises an IRQ.
#[tactic(auto, unfolding(crate::specs::Report::interrupts))]
pub fn raises_irq(command: Command, outcome: Outcome) -> bool
    ensures { result ≡ interrupts command outcome }
{
    command.flags.irq() & (outcome.is_ok() | (5 <= number(outcome)))
}

#[tactic(auto, unfolding(crate::specs::Report::words_read))]
pub fn words_read(command: Command, outcome: Outcome) -> u32
    ensures { result ≡ words_read command outcome }
{
    if (command.opcode == Some(Opcode::ReadMem)) & outcome.is_ok() {
        command.len as u32
    } else {
        0
    }
}
