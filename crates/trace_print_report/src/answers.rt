// What the calls that read an engine answer. A refused call prints nothing.
use refusal::Refusal;
use state::Rate;
use std::io::Stdout;

// a name, two numbers, and that there is no answer
fn none(
    stdout: Stdout,
    name: &[u8],
    dest: usize,
    voice: usize,
    out: &mut [u8],
    at: usize,
) -> usize {
    let p = trace_output_figures::two_after(stdout, out, at, name, dest, voice);
    trace_output_show::put(stdout, out, p, b" none\n")
}

fn one(
    stdout: Stdout,
    dest: usize,
    voice: usize,
    x: f32,
    canon: bool,
    out: &mut [u8],
    at: usize,
) -> usize {
    let mut p = trace_output_figures::two_after(stdout, out, at, b"LATEST ", dest, voice);
    p = trace_output_figures::number(stdout, x, canon, out, p);
    trace_output_show::put(stdout, out, p, b"\n")
}

// `LATEST dest voice X`, or none
pub fn latest(
    stdout: Stdout,
    answer: Result<Option<f32>, Refusal>,
    dest: usize,
    voice: usize,
    canon: bool,
    out: &mut [u8],
    at: usize,
) -> Result<usize, Refusal> {
    Ok(match answer? {
        None => none(stdout, b"LATEST ", dest, voice, out, at),
        Some(x) => one(stdout, dest, voice, x, canon, out, at),
    })
}

// what stands in the numbers for `latest_all` before the call
pub fn unwritten() -> f32 {
    hex_words::of_bits(3735928559)
}

// `ALL voices each X..`, `each` numbers for each voice
pub fn latest_all(
    stdout: Stdout,
    answer: Result<(), Refusal>,
    voices: usize,
    each: usize,
    all: &[f32],
    canon: bool,
    out: &mut [u8],
    at: usize,
) -> Result<usize, Refusal> {
    answer?;
    let p = trace_output_figures::two_after(stdout, out, at, b"ALL ", voices, each);
    Ok(trace_output_figures::line(stdout, all, canon, out, p))
}

fn filled(
    stdout: Stdout,
    dest: usize,
    voice: usize,
    row: &[f32],
    canon: bool,
    out: &mut [u8],
    at: usize,
) -> usize {
    let p = trace_output_figures::two_after(stdout, out, at, b"RAMP ", dest, voice);
    trace_output_figures::line(stdout, row, canon, out, p)
}

// `RAMP dest voice X..`, of the row's first numbers, or none
pub fn ramp(
    stdout: Stdout,
    answer: Result<Option<usize>, Refusal>,
    dest: usize,
    voice: usize,
    row: &[f32],
    canon: bool,
    out: &mut [u8],
    at: usize,
) -> Result<usize, Refusal> {
    Ok(match answer? {
        None => none(stdout, b"RAMP ", dest, voice, out, at),
        Some(n) => {
            let xs = trace_output_figures::part(row, 0, n);
            filled(stdout, dest, voice, xs, canon, out, at)
        }
    })
}

// `ACTIVE voice 0|1`
pub fn is_active(
    stdout: Stdout,
    answer: Result<bool, Refusal>,
    voice: usize,
    out: &mut [u8],
    at: usize,
) -> Result<usize, Refusal> {
    let on = answer?;
    let mut p = trace_output_show::whole_after(stdout, out, at, b"ACTIVE ", voice as u64);
    p = trace_output_show::flag_after(stdout, out, p, b" ", on);
    Ok(trace_output_show::put(stdout, out, p, b"\n"))
}

fn rate_name(stdout: Stdout, answer: Option<Rate>, out: &mut [u8], at: usize) -> usize {
    match answer {
        Some(Rate::Audio) => trace_output_show::put(stdout, out, at, b" audio\n"),
        Some(Rate::Control) => trace_output_show::put(stdout, out, at, b" control\n"),
        Some(Rate::Adaptive) | None => trace_output_show::put(stdout, out, at, b" none\n"),
    }
}

// `RATE dest audio|control|none`
pub fn rate(stdout: Stdout, answer: Option<Rate>, dest: usize, out: &mut [u8], at: usize) -> usize {
    let p = trace_output_show::whole_after(stdout, out, at, b"RATE ", dest as u64);
    rate_name(stdout, answer, out, p)
}
