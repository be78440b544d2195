// Why an input is no job.
ghost use Rattle.std.specs.Prelude.{◌≡◌};
ghost use Rattle.job.specs.Fault.{fault_number};

// The first section that is too short or faulty, or what is wrong with the whole's length.
#[derive(Clone, Copy, Debug, PartialEq, Eq)]
pub enum Fault {
    TooManyBytes,
    Windows,
    Ring0,
    Ring1,
    Ring2,
    Ring3,
    Kernels,
    Code,
    Memory,
    BytesLeftOver,
}

impl From<Fault> for u32 {
    ghost from_gives = { λ fault number. number ≡ fault_number fault };

    fn from(fault: Fault) -> u32 {
        match fault {
            Fault::TooManyBytes => 0,
            Fault::Windows => 1,
            Fault::Ring0 => 2,
            Fault::Ring1 => 3,
            Fault::Ring2 => 4,
            Fault::Ring3 => 5,
            Fault::Kernels => 6,
            Fault::Code => 7,
            Fault::Memory => 8,
            Fault::BytesLeftOver => 9,
        }
    }
}
