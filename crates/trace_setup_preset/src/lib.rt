// A session's lines about what a program is compiled from: the configuration, the registries, tables by name, slots and
// note curves.
#![tactic(auto)]

mod curves;
mod entries;
mod fields;

use config::Config;
pub use curves::{Table, matrix_line, named};
pub use entries::registry_line;
use state::{Destinations, Matrix, Sources};

// What a program is compiled from, but for the tables.
#[derive(Clone, Copy)]
pub struct Preset {
    pub config: Config,
    pub sources: Sources,
    pub dests: Destinations,
    pub matrix: Matrix,
}

// What a line about the configuration and the registries answers.
#[derive(Clone, Copy)]
pub enum Answer {
    // a lane's stride, and the most chunks of a block
    Config { stride: usize, chunks: usize },
    // the id of the new source
    Source(usize),
    // the id of the new destination
    Dest(usize),
    // the registries are empty
    Cleared,
    // the id of the source with a key, where there is one
    Found(Option<usize>),
}

// The preset after such a line, and its answer.
#[derive(Clone, Copy)]
pub struct Changed {
    pub preset: Preset,
    pub answer: Answer,
}

// How many numbers named tables may have.
pub const NUMBERS: usize = 60000;

// Where the matrix's tables begin in the desk; before them stand an engine's held memory, and its globals from 8192 on.
pub const DESK: usize = 8320;

// before any line: the rate 48,000, 64 frames, 1 voice
pub fn start() -> Preset {
    let config = Config {
        sample_rate: 48000.0,
        max_frames: 64,
        voices: 1,
    };
    let sources = source::new();
    let dests = dest::new();
    let matrix = matrix::new();
    Preset {
        config,
        sources,
        dests,
        matrix,
    }
}

// how many destinations are registered
pub fn dests(preset: Preset) -> usize {
    let dests = preset.dests;
    dests.count
}
