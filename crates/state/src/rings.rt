// The four rings' bytes that a call lends.
ghost use Rattle.std.specs.Prelude.{◌≡◌};
ghost use Rattle.state.specs.Ready.{bytes_of_ring};

#[derive(Clone, Copy)]
pub struct Rings<'a> {
    pub ring0: &'a [u8],
    pub ring1: &'a [u8],
    pub ring2: &'a [u8],
    pub ring3: &'a [u8],
}

impl<'a> Rings<'a> {
    // Any number from 3 on names the last.
    #[tactic(auto, unfolding(crate::specs::Ready::bytes_of_ring))]
    pub fn ring(self, q: u32) -> &'a [u8]
        ensures { result.now ≡ bytes_of_ring q self.entry.ring0.now self.entry.ring1.now self.entry.ring2.now self.entry.ring3.now }
    {
        match q {
            0 => self.ring0,
            1 => self.ring1,
            2 => self.ring2,
            _ => self.ring3,
        }
    }
}
