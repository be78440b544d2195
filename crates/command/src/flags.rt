// The flags of a command: bit 0 IRQ, 1 emit, 2 wait, 3 payload, others reserved.
ghost use Rattle.std.specs.Prelude.{◌≡◌};
ghost use Rattle.command.specs.Flags.{irq_bit, emit_bit, wait_bit, payload_bit, reserved_bit};

#[derive(Clone, Copy, Debug, PartialEq, Eq)]
pub struct Flags(pub u8);

impl Flags {
    pub fn irq(self) -> bool
        ensures { result ≡ irq_bit self }
    {
        self.0 % 2 == 1
    }

    pub fn emit(self) -> bool
        ensures { result ≡ emit_bit self }
    {
        self.0 / 2 % 2 == 1
    }

    pub fn wait(self) -> bool
        ensures { result ≡ wait_bit self }
    {
        self.0 / 4 % 2 == 1
    }

    pub fn payload(self) -> bool
        ensures { result ≡ payload_bit self }
    {
        self.0 / 8 % 2 == 1
    }

    pub fn reserved(self) -> bool
        ensures { result ≡ reserved_bit self }
    {
        self.0 / 16 != 0
    }
}
