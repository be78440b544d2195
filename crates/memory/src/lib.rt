// Everything that touches a lent window of bytes. Addresses count from its start.
#![tactic(auto)]

pub mod access;
pub mod address;
pub mod copy;
pub mod peek;
pub mod place;
pub mod quad;
pub mod rectangle;
pub mod transfer;
