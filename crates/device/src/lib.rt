// The device: making a fresh one, and a turn.
#![tactic(auto)]

pub mod fresh;
pub mod turn;
