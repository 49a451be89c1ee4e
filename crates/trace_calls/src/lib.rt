// A session's lines about an engine: blocks, settings, notes, and what is printed of it.
#![tactic(auto)]

mod readers;
mod setters;

pub use readers::{on_memory, on_state, outputs, process, reader_line};
pub use setters::setter_line;
