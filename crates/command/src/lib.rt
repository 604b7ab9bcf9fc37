// What the programs share: how they are called, what they read, which surveys they serve, and what they tell.
#![tactic(auto)]

pub mod call;
pub mod limits;
pub mod parts;
pub mod talk;
