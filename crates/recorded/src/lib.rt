// A recorded call of a device, made again and held to what was recorded.
#![tactic(auto)]

pub mod call;
mod fresh;
mod piece;
mod turn;
