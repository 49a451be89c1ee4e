// An engine's outputs and answers as text (oracle/README.md, What is printed).
#![tactic(auto)]

mod answers;
mod blocks;

pub use answers::{is_active, latest, latest_all, ramp, rate, unwritten};
pub use blocks::outputs;

// How outputs are printed.
#[derive(Clone, Copy)]
pub enum Print {
    Full,
    Hash,
    Cases,
    Silent,
}

// `canon`: -0 is printed as 0.
#[derive(Clone, Copy)]
pub struct How {
    pub print: Print,
    pub canon: bool,
}
