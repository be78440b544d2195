// What a turn goes by: the device's state, its edition, slots and counts, the refusals of a call, and which ring is ready.
#![tactic(auto)]

pub mod counts;
pub mod device;
pub mod edition;
pub mod plus_one;
pub mod ready;
pub mod refusal;
pub mod rings;
pub mod slots;
