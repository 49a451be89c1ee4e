// An engine's state and a program's memory as text (oracle/README.md, What is printed: the S and M lines).
#![tactic(auto)]

mod lanes;
mod places;

pub use lanes::state;
pub use places::memory;
