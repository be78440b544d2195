// The kernel pack: which kernels it holds, and whether it is faulty.
#![tactic(auto)]

pub mod kernels;
