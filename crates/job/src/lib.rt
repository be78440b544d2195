// The replay job: its input taken apart.
#![tactic(auto)]

mod checks;
pub mod fault;
mod kernels;
pub mod parse;
pub mod parts;
mod section;
mod sections;
