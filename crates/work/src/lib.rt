// Commands as they are done: the checks before the work, the work of each on its ring's window, and a command performed.
#![tactic(auto)]

pub mod checks;
pub mod perform;
pub mod shape;
pub mod work;
