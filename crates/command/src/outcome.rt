// What became of a command.
ghost use Rattle.std.specs.Prelude.{◌≡◌};
ghost use Rattle.command.specs.Outcome.{fault_number, outcome_number};

#[derive(Clone, Copy, Debug, PartialEq, Eq)]
pub enum Fault {
    // 1: opcode not in the table.
    UnknownOpcode,
    // 2: a reserved flag is set.
    ReservedFlag,
    // 3: payload bit not as in the table.
    WrongPayloadBit,
    // 4: emit or wait set and rdst above 63.
    NoSuchSlot,
    // 5: emit set and the slot is full: in edition 1, it holds 4,294,967,295.
    SlotFull,
    // 6: an address, or SET_FB's base or stride, not a multiple of 4.
    Misaligned,
    // 7: FILL or BLIT with no frame; or, width and height nonzero, 4·width above the stride.
    NoFrame,
    // 8: bytes outside the window; or SET_FB base not below its length.
    OutsideTheWindow,
    // 9: stride outside 4 to 65,536, or format not 0.
    BadFrame,
    // 10: groups or threads outside 1 to 64, or no such kernel.
    BadDispatch,
    // 11: word not in the instruction list.
    NotListed,
    // 12: taken branch to a place that is not a multiple of 4 inside the kernel; or running off its end.
    OffTheKernel,
    // 13: load or store not wholly in the window.
    AccessOutside,
    // 14: thread already took its steps.
    OutOfSteps,
}

// 0: done.
pub type Outcome = Result<(), Fault>;

impl From<Fault> for u32 {
    ghost from_gives = { λ fault n. n ≡ fault_number fault };

    fn from(fault: Fault) -> u32 {
        match fault {
            Fault::UnknownOpcode => 1,
            Fault::ReservedFlag => 2,
            Fault::WrongPayloadBit => 3,
            Fault::NoSuchSlot => 4,
            Fault::SlotFull => 5,
            Fault::Misaligned => 6,
            Fault::NoFrame => 7,
            Fault::OutsideTheWindow => 8,
            Fault::BadFrame => 9,
            Fault::BadDispatch => 10,
            Fault::NotListed => 11,
            Fault::OffTheKernel => 12,
            Fault::AccessOutside => 13,
            Fault::OutOfSteps => 14,
        }
    }
}

pub fn number(outcome: Outcome) -> u32
    ensures { result ≡ outcome_number outcome }
{
    match outcome {
        Ok(()) => 0,
        Err(fault) => fault.into(),
    }
}
