// Commands as they are read: the header, the opcode table, the flags, the faults that a header shows, and what is reported.
#![tactic(auto)]

pub mod faults;
pub mod flags;
pub mod frame;
pub mod header;
pub mod opcode;
pub mod outcome;
pub mod report;
pub mod table;
