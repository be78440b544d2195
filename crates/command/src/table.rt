// The table of commands, by opcode.
ghost use Rattle.std.specs.Prelude.{◌≡◌};
ghost use Rattle.command.specs.Table.{row, row_of};

use crate::opcode::Opcode;

#[derive(Clone, Copy, Debug, PartialEq, Eq)]
pub struct Row {
    // Whether the payload bit is set.
    pub payload: bool,
    // Whether arg0 and arg1 are addresses.
    pub address0: bool,
    pub address1: bool,
}

impl Row {
    fn of(payload: bool, address0: bool, address1: bool) -> Self
        ensures { result ≡ row payload address0 address1 }
    {
        Row {
            payload,
            address0,
            address1,
        }
    }
}

#[tactic(auto, unfolding(crate::specs::Table::row_of))]
pub fn row_of(opcode: Option<Opcode>) -> Row
    ensures { result ≡ row_of opcode }
{
    match opcode {
        Some(Opcode::WriteMem) => Row::of(true, true, false),
        Some(Opcode::ReadMem) => Row::of(false, true, false),
        Some(Opcode::FillRect) => Row::of(false, true, false),
        Some(Opcode::Blit) => Row::of(false, true, true),
        Some(Opcode::Dispatch1d) => Row::of(false, false, false),
        Some(Opcode::Barrier) => Row::of(false, false, false),
        Some(Opcode::CopyBuffer) => Row::of(false, true, true),
        Some(Opcode::SetFb) => Row::of(false, false, false),
        None => Row::of(false, false, false),
    }
}
