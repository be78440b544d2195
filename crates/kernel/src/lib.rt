// Kernels: the registers, a thread's steps, and a dispatch.
#![tactic(auto)]

pub mod dispatch;
pub mod registers;
pub mod run;
pub mod site;
pub mod step;
pub mod thread;
