// The sizes of the core, and the configuration that an engine and its programs share.
#![tactic(auto)]

ghost use Rattle.std.specs.Prelude.{◌≡◌, min};
ghost use Rattle.refusal.specs.Refusal.{code_of};
ghost use Rattle.config.specs.Sizes.{most_voices, most_frames, lane_stride, most_chunks};
ghost use Rattle.config.specs.Configuration.{config_code};

use refusal::Refusal;

pub const SLOTS: usize = 64;

pub const SOURCES: usize = 128;

pub const DESTINATIONS: usize = 1024;

pub const PERIOD: usize = 32;

pub const LANES: usize = 16;

pub const VOICES: usize = 64;

pub const FRAMES: usize = 4096;

pub const SIGNAL_STRIDE: usize = 256;

// What an engine and its programs are sized for.
#[derive(Clone, Copy)]
pub struct Config {
    pub sample_rate: f32,
    pub max_frames: usize,
    pub voices: usize,
}

// Whether a configuration is accepted, or why it is not.
pub fn check(sample_rate: f32, max_frames: usize, voices: usize) -> Result<(), Refusal>
    ensures { code_of result ≡ config_code sample_rate max_frames voices }
{
    refusal::when(!number::is_finite(sample_rate), Refusal::Number)?;
    let too_many = FRAMES < max_frames || VOICES < voices;
    refusal::when(sample_rate <= 0.0 || too_many, Refusal::Range)
}

// Voices rounded up to a multiple of the lanes, at least that many; voices beyond the most count as the most.
pub fn lane_stride(voices: usize) -> usize
    ensures { result ≡ lane_stride (min voices most_voices) }
{
    if voices == 0 {
        LANES
    } else if voices <= VOICES {
        (voices + (LANES - 1)) / LANES * LANES
    } else {
        VOICES
    }
}

// The most chunks that a block has; frames beyond the most count as the most.
pub fn most_chunks(max_frames: usize) -> usize
    ensures { result ≡ most_chunks (min max_frames most_frames) }
{
    if max_frames <= FRAMES {
        max_frames / PERIOD + 2
    } else {
        FRAMES / PERIOD + 2
    }
}
