// The lines that make programs and engines and install programs.
#![tactic(auto)]

mod programs;

pub use programs::{Whole, number_of, put, whole_line};
