// Every number rule that the device needs, as pure functions.
#![tactic(auto)]

pub mod arithmetic;
pub mod at_once;
pub mod bitwise;
pub mod bytes;
pub mod compare;
pub mod counts;
pub mod fields;
pub mod halves;
pub mod lanes;
pub mod products;
pub mod signed;
