// The instruction list: what each word stands for, and what each instruction does to values.
#![tactic(auto)]

pub mod decode;
pub mod effect;
pub mod list;
pub mod meaning;
mod rows;
pub mod vectors;
