// Numbers in decimal, put into lent bytes, and the lines of the replay job.
#![tactic(auto)]

pub mod decimal;
pub mod line;
