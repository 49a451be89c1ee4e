// The hash of an engine's outputs: FNV-1a of 64 bits over the bits of each number, least significant byte first.
// Destinations come in order; of one at audio rate every frame, of one at control rate the end of every chunk; of each
// of these every voice, or the one number of a global destination.
use engine::{Engine, Output};
use refusal::Refusal;

// the hash after a byte
fn after_byte(h: u64, b: u64) -> u64 {
    draw::wrapping_mul(h ^ b, 1099511628211)
}

// the hash after a number
fn after(h: u64, x: f32) -> u64 {
    let n = hex_words::bits_of(x) as u64;
    let a = after_byte(h, n % 256);
    let b = after_byte(a, n / 256 % 256);
    let c = after_byte(b, n / 65536 % 256);
    after_byte(c, n / 16777216 % 256)
}

// the lane of number i of rows of that width
fn lane(i: usize, width: usize) -> usize {
    if width == 0 {
        return 0;
    }
    i % width
}

// the hash after a number, if its lane is a voice's
fn after_lane(h: u64, x: f32, lane: usize, voices: usize) -> u64 {
    if lane < voices {
        return after(h, x);
    }
    h
}

// the hash after rows
fn after_rows(start: u64, rows: &[f32], width: usize, voices: usize) -> u64 {
    let mut h = start;
    for i in 0..rows.len() {
        h = after_lane(h, rows[i], lane(i, width), voices);
    }
    h
}

// the width of a destination's rows
fn width_of(output: Output) -> usize {
    match output {
        Output::Audio { width } => width,
        Output::Control { width, chunks: _ } => width,
        Output::Unmodulated => 0,
    }
}

// the hash after the rows of a part, if there are any
fn after_part(h: u64, part: Result<&[f32], Refusal>, width: usize, voices: usize) -> u64 {
    match part {
        Ok(rows) => after_rows(h, rows, width, voices),
        Err(_) => h,
    }
}

// the hash after a destination: it has rows at one of the two rates
fn after_dest(h: u64, e: Engine, d: usize, voices: usize, values: &[f32], audio: &[f32]) -> u64 {
    let width = match e.output(values, audio, d) {
        Ok(output) => width_of(output),
        Err(_) => 0,
    };
    let sound = e.audio_part(audio, d);
    let a = after_part(h, sound, width, voices);
    let ends = e.to_part(values, d);
    after_part(a, ends, width, voices)
}

// the hash of every destination
fn of_all(e: Engine, dests: usize, voices: usize, values: &[f32], audio: &[f32]) -> u64 {
    let mut h = 14695981039346656037u64;
    for d in 0..dests {
        h = after_dest(h, e, d, voices, values, audio);
    }
    h
}

// Leaves the hash at the first place, if there is one.
pub fn put(e: Engine, dests: usize, voices: usize, values: &[f32], audio: &[f32], out: &mut [u64]) {
    if 0 < out.len() {
        out[0] = of_all(e, dests, voices, values, audio);
    }
}
