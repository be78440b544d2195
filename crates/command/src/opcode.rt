// The opcodes, and the byte of each.
ghost use Rattle.std.specs.Prelude.{◌≡◌, ok_or};
ghost use Rattle.command.specs.declared.outcome.Fault.TheVariants.{UnknownOpcode};
ghost use Rattle.command.specs.Opcode.{opcode_number, opcode_of};

use crate::outcome::Fault;

pub const WRITE_MEM: u8 = 0x01;

pub const READ_MEM: u8 = 0x02;

pub const FILL_RECT: u8 = 0x10;

pub const BLIT: u8 = 0x11;

pub const DISPATCH_1D: u8 = 0x20;

pub const BARRIER: u8 = 0x22;

pub const COPY_BUFFER: u8 = 0x23;

pub const SET_FB: u8 = 0x30;

#[derive(Clone, Copy, Debug, PartialEq, Eq)]
pub enum Opcode {
    WriteMem,
    ReadMem,
    FillRect,
    Blit,
    Dispatch1d,
    Barrier,
    CopyBuffer,
    SetFb,
}

impl From<Opcode> for u8 {
    ghost from_gives = { λ opcode n. n ≡ opcode_number opcode };

    fn from(opcode: Opcode) -> u8 {
        match opcode {
            Opcode::WriteMem => WRITE_MEM,
            Opcode::ReadMem => READ_MEM,
            Opcode::FillRect => FILL_RECT,
            Opcode::Blit => BLIT,
            Opcode::Dispatch1d => DISPATCH_1D,
            Opcode::Barrier => BARRIER,
            Opcode::CopyBuffer => COPY_BUFFER,
            Opcode::SetFb => SET_FB,
        }
    }
}

impl TryFrom<u8> for Opcode {
    type Error = Fault;

    ghost try_from_gives = { λ byte r. r ≡ ok_or (opcode_of byte) UnknownOpcode };

    #[tactic(auto, unfolding(crate::specs::Opcode::opcode_of))]
    fn try_from(byte: u8) -> Result<Self, Fault> {
        match byte {
            WRITE_MEM => Ok(Opcode::WriteMem),
            READ_MEM => Ok(Opcode::ReadMem),
            FILL_RECT => Ok(Opcode::FillRect),
            BLIT => Ok(Opcode::Blit),
            DISPATCH_1D => Ok(Opcode::Dispatch1d),
            BARRIER => Ok(Opcode::Barrier),
            COPY_BUFFER => Ok(Opcode::CopyBuffer),
            SET_FB => Ok(Opcode::SetFb),
            _ => Err(Fault::UnknownOpcode),
        }
    }
}
