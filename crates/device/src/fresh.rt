// Making a fresh device.
ghost use Rattle.std.specs.Prelude.{◌≡◌};
ghost use Rattle.device.specs.Fresh.{not_made, fresh_with, fresh_of};
ghost use Rattle.device.specs.Answer.{making_number};

use state::device::{DEFAULT_LIMIT, Device, Window};
use state::edition::Start;
use state::refusal::{Refusal, limit_fits, memory_fits};

#[derive(Clone, Copy)]
pub struct Fresh {
    pub device: Device,
    pub answer: Result<(), Refusal>,
}

// 0 made, or the refusal's number.
pub fn making_number(answer: Result<(), Refusal>) -> u32
    ensures { result ≡ making_number answer }
{
    match answer {
        Ok(()) => 0,
        Err(why) => why.into(),
    }
}

impl Fresh {
    pub fn number(self) -> u32
        ensures { result ≡ making_number self.answer }
    {
        making_number(self.answer)
    }
}

#[tactic(auto, unfolding(crate::specs::Fresh::not_made))]
fn not_made(why: Refusal) -> Fresh
    ensures { result ≡ not_made why }
{
    Fresh {
        device: Device::empty(),
        answer: Err(why),
    }
}

// With a limit and a start named. `memory` is the memory's length.
#[tactic(auto, unfolding(crate::specs::Fresh::fresh_with))]
pub fn make_with(memory: usize, windows: [Window; 4], limit: u32, start: Start) -> Fresh
    ensures { result ≡ fresh_with memory windows limit start }
{
    if !memory_fits(memory, windows) {
        return not_made(Refusal::Memory);
    }
    if !limit_fits(limit) {
        return not_made(Refusal::State);
    }
    Fresh {
        device: Device::fresh(windows, limit, start),
        answer: Ok(()),
    }
}

// With neither named: edition 1.
pub fn make(memory: usize, windows: [Window; 4]) -> Fresh
    ensures { result ≡ fresh_of memory windows }
{
    make_with(memory, windows, DEFAULT_LIMIT, Start::Edition1)
}
