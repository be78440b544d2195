// A ring's frame, and the test that SET_FB makes of one.
ghost use Rattle.std.specs.Prelude.{◌≡◌};
ghost use Rattle.command.specs.Frame.{not_a_multiple, frame_misaligned, frame_outside, frame_unfit, frame_fault, held_fault, stride_of};

use crate::outcome::{Fault, Outcome};

#[derive(Clone, Copy, Debug, PartialEq, Eq)]
pub struct Frame {
    pub base: u32,
    pub stride: u32,
    pub format: u32,
}

pub fn not_a_multiple(x: u32) -> bool
    ensures { result ≡ not_a_multiple x }
{
    x % 4 != 0
}

impl Frame {
    #[tactic(auto, unfolding(crate::specs::Frame::frame_misaligned))]
    pub fn is_misaligned(self) -> bool
        ensures { result ≡ frame_misaligned self }
    {
        not_a_multiple(self.base) | not_a_multiple(self.stride)
    }

    pub fn is_outside(self, length: usize) -> bool
        ensures { result ≡ frame_outside self length }
    {
        length <= self.base as usize
    }

    #[tactic(auto, unfolding(crate::specs::Frame::frame_unfit))]
    pub fn is_unfit(self) -> bool
        ensures { result ≡ frame_unfit self }
    {
        (self.stride < 4) | (65536 < self.stride) | (self.format != 0)
    }

    #[tactic(auto, unfolding(crate::specs::Frame::frame_fault))]
    pub fn fault(self, length: usize) -> Outcome
        ensures { result ≡ frame_fault self length }
    {
        if self.is_misaligned() {
            return Err(Fault::Misaligned);
        }
        if self.is_outside(length) {
            return Err(Fault::OutsideTheWindow);
        }
        if self.is_unfit() {
            return Err(Fault::BadFrame);
        }
        Ok(())
    }
}

// The same test of the frame that a ring has; no frame passes it.
#[tactic(auto, unfolding(crate::specs::Frame::held_fault))]
pub fn held_fault(frame: Option<Frame>, length: usize) -> Outcome
    ensures { result ≡ held_fault frame length }
{
    match frame {
        None => Ok(()),
        Some(frame) => frame.fault(length),
    }
}

// 0 of no frame.
pub fn stride_of(frame: Option<Frame>) -> u32
    ensures { result ≡ stride_of frame }
{
    frame.map_or(0, |frame| frame.stride)
}
