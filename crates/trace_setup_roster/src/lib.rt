// The line `standard` (oracle/README.md, Setting up): the standard sources of its counts and audio keys, and the entries of a registry as text.
#![tactic(auto)]

use source::Counts;
use state::{Kind, Range, Scope, Source, Sources};
use std::io::Stdout;
use trace_stops::{Limit, Stop};

// How many audio keys a line may have, and how many bytes they have in all.
const KEYS: usize = 256;

const BYTES: usize = 8192;

// ---- the audio keys of a line

// a key behind the first `at` bytes: where it ends, where there is room
fn put_key(bytes: &mut [u8], at: usize, key: &[u8]) -> Result<usize, Limit> {
    if bytes.len() < at || bytes.len() - at < key.len() {
        return Err(Limit::Keys);
    }
    let end = at + key.len();
    bytes[at..end].copy_from_slice(key);
    Ok(end)
}

// the n words from word 5 on, one after the other: where they end, where there is room
fn put_keys(
    line: &[u8],
    n: usize,
    bytes: &mut [u8],
    lengths: &mut [usize],
) -> Result<usize, Limit> {
    let mut at = 0usize;
    let mut p = trace_input_session::place(line, 5);
    for length in lengths.iter_mut().take(n) {
        let key = trace_input_words::key(trace_input_session::word_at(line, p));
        at = put_key(bytes, at, key)?;
        *length = key.len();
        p = trace_input_session::next(line, p);
    }
    Ok(at)
}

// ---- the sources

// with n audio keys
fn made_with(counts: Counts, line: &[u8], n: usize) -> Result<Sources, Stop> {
    if KEYS < n {
        return Err(Stop::TooLarge(Limit::Keys));
    }
    let mut bytes = [0u8; BYTES];
    let mut lengths = [0usize; KEYS];
    let end = put_keys(line, n, &mut bytes, &mut lengths)?;
    let keys = trace_input_session::part(&bytes, 0, end);
    Ok(source::standard(counts, keys, &lengths[..n])?)
}

// how many words come after the first five
fn keys_of(line: &[u8]) -> usize {
    let n = trace_input_session::count(line);
    if n < 5 {
        return 0;
    }
    n - 5
}

// `standard ENVELOPES LFOS MACROS VALUES KEY ..`
pub fn made(line: &[u8]) -> Result<Sources, Stop> {
    let counts = Counts {
        envelopes: trace_input_words::number_at(line, 1),
        lfos: trace_input_words::number_at(line, 2),
        macros: trace_input_words::number_at(line, 3),
        sequence_values: trace_input_words::number_at(line, 4),
    };
    made_with(counts, line, keys_of(line))
}

// ---- the entries as text

fn put_kind(stdout: Stdout, kind: Kind, out: &mut [u8], at: usize) -> usize {
    match kind {
        Kind::Signal => trace_output_show::put(stdout, out, at, b" signal"),
        Kind::Audio => trace_output_show::put(stdout, out, at, b" audio"),
        Kind::Held => trace_output_show::put(stdout, out, at, b" held"),
        Kind::Velocity => trace_output_show::put(stdout, out, at, b" velocity"),
        Kind::Key => trace_output_show::put(stdout, out, at, b" key"),
        Kind::ReleaseVelocity => trace_output_show::put(stdout, out, at, b" release"),
        Kind::Random => trace_output_show::put(stdout, out, at, b" random"),
        Kind::Alternate { inverse } => trace_output_show::either(
            stdout, out, at, inverse, b" altinv", b" alt",
        ),
        Kind::RandomPerRoute => trace_output_show::put(stdout, out, at, b" routerandom"),
        Kind::VoiceLoad => trace_output_show::put(stdout, out, at, b" load"),
        Kind::Constant => trace_output_show::put(stdout, out, at, b" constant"),
    }
}

fn put_scope(stdout: Stdout, scope: Scope, out: &mut [u8], at: usize) -> usize {
    match scope {
        Scope::Voice => trace_output_show::put(stdout, out, at, b" v"),
        Scope::Global => trace_output_show::put(stdout, out, at, b" g"),
    }
}

fn put_range(stdout: Stdout, range: Range, out: &mut [u8], at: usize) -> usize {
    match range {
        Range::Unipolar => trace_output_show::put(stdout, out, at, b" u\n"),
        Range::Bipolar => trace_output_show::put(stdout, out, at, b" b\n"),
    }
}

fn put_name(stdout: Stdout, key: &[u8], out: &mut [u8], at: usize) -> usize {
    if key.len() == 0 {
        return trace_output_show::put(stdout, out, at, b" ~");
    }
    let p = trace_output_show::put(stdout, out, at, b" ");
    trace_output_show::put(stdout, out, p, key)
}

// entry i
fn put_entry(stdout: Stdout, e: Source, i: usize, out: &mut [u8], at: usize) -> usize {
    let key = e.key;
    let kind = e.kind;
    let scope = e.scope;
    let range = e.range;
    let mut p = trace_output_show::whole_after(stdout, out, at, b"ENTRY ", i as u64);
    p = put_name(stdout, trace_input_session::part(&key, 0, e.len), out, p);
    p = put_kind(stdout, kind, out, p);
    p = put_scope(stdout, scope, out, p);
    put_range(stdout, range, out, p)
}

// How many sources there are, and each of them.
pub fn put(stdout: Stdout, sources: Sources, out: &mut [u8], at: usize) -> usize {
    let mut p = trace_output_show::whole_after(stdout, out, at, b"STANDARD ", sources.count as u64);
    p = trace_output_show::put(stdout, out, p, b"\n");
    for (i, entry) in sources.entry.iter().enumerate().take(sources.count) {
        p = put_entry(stdout, *entry, i, out, p);
    }
    p
}
