// What is said of a word that does not belong where it stands, or is missing (docs/SESSIONS.md, Errors). The command is
// word 1.
use std::io::Stdout;
use trace_grammar::Line;
use trace_grammar_kinds::{Kind, LAST_ENTRY, LAST_PLACE, LAST_SOURCE};

// what a word of a kind is called, `a` standing before it
fn put_kind(stdout: Stdout, kind: Kind, out: &mut [u8], at: usize) -> usize {
    match kind {
        Kind::End => trace_output_show::put(stdout, out, at, b"word"),
        Kind::Whole => trace_output_show::put(stdout, out, at, b"whole number"),
        Kind::MaybeWhole => trace_output_show::put(stdout, out, at, b"whole number"),
        Kind::Place => put_up_to(stdout, LAST_PLACE, out, at),
        Kind::Entry => put_up_to(stdout, LAST_ENTRY, out, at),
        Kind::Source => put_up_to(stdout, LAST_SOURCE, out, at),
        Kind::Number => trace_output_show::put(stdout, out, at, b"number"),
        Kind::Numbers => trace_output_show::put(stdout, out, at, b"number"),
        Kind::Flag => trace_output_show::put(stdout, out, at, b"flag (0 or 1)"),
        Kind::Key => trace_output_show::put(stdout, out, at, b"key"),
        Kind::Keys => trace_output_show::put(stdout, out, at, b"key"),
        Kind::Name => trace_output_show::put(stdout, out, at, b"name"),
        Kind::Table => trace_output_show::put(stdout, out, at, b"name of a table"),
        Kind::Program => trace_output_show::put(stdout, out, at, b"name of a program"),
        Kind::Target => trace_output_show::put(stdout, out, at, b"target (p:NUMBER or l:LFO:BUS)"),
        Kind::Feed => put_feed(stdout, out, at),
        Kind::Fields => trace_output_show::put(stdout, out, at, b"field of a slot"),
        Kind::Draw => trace_output_show::put(
            stdout,
            out,
            at,
            b"state of draws (16 hexadecimal digits)",
        ),
        Kind::Length => put_length(stdout, out, at),
        Kind::Part => trace_output_show::put(
            stdout,
            out,
            at,
            b"place (end, end+1 or a whole number)",
        ),
        Kind::LengthOrLetter => put_letter(stdout, b"whole number or ", out, at),
        Kind::Letter => put_letter(stdout, b"", out, at),
        Kind::Spec => put_spec(stdout, out, at),
        Kind::Samples => trace_output_show::put(stdout, out, at, b"kind of samples (hex or gen)"),
        Kind::SourceKind => put_source_kind(stdout, out, at),
        Kind::Scope => trace_output_show::put(stdout, out, at, b"scope (v or g)"),
        Kind::Range => trace_output_show::put(stdout, out, at, b"range (u or b)"),
        Kind::Rate => trace_output_show::put(stdout, out, at, b"rate (audio, control or adaptive)"),
        Kind::Mode => trace_output_show::put(stdout, out, at, b"mode (full, hash, cases or none)"),
        Kind::Memory => put_memory(stdout, out, at),
        Kind::Command => trace_output_show::put(stdout, out, at, b"command"),
    }
}

fn put_up_to(stdout: Stdout, most: usize, out: &mut [u8], at: usize) -> usize {
    trace_output_show::whole_after(stdout, out, at, b"whole number up to ", most as u64)
}

fn put_feed(stdout: Stdout, out: &mut [u8], at: usize) -> usize {
    trace_output_show::put(
        stdout,
        out,
        at,
        b"feed (-, src:SOURCE, amt:SLOT or out:SLOT)",
    )
}

fn put_length(stdout: Stdout, out: &mut [u8], at: usize) -> usize {
    trace_output_show::put(
        stdout,
        out,
        at,
        b"length (all, need, need-1 or a whole number up to 1000000000000)",
    )
}

fn put_letter(stdout: Stdout, first: &[u8], out: &mut [u8], at: usize) -> usize {
    let p = trace_output_show::put(stdout, out, at, first);
    trace_output_show::put(stdout, out, p, b"kind of a generator (u, b, t, x, y or r)")
}

fn put_spec(stdout: Stdout, out: &mut [u8], at: usize) -> usize {
    trace_output_show::put(
        stdout,
        out,
        at,
        b"kind of a table (len, put, lin, rev, sq, const, step, gen or hex)",
    )
}

fn put_source_kind(stdout: Stdout, out: &mut [u8], at: usize) -> usize {
    trace_output_show::put(
        stdout,
        out,
        at,
        b"kind of a source (signal, audio, held, velocity, key, release, random, alt, altinv, routerandom, load or constant)",
    )
}

fn put_memory(stdout: Stdout, out: &mut [u8], at: usize) -> usize {
    trace_output_show::put(
        stdout,
        out,
        at,
        b"memory (held, globals, bases, values, audio, tables, matrix_tables, out or engine)",
    )
}

// word n of a line, between quotes
fn put_word(stdout: Stdout, n: usize, line: &[u8], out: &mut [u8], at: usize) -> usize {
    if n == 0 {
        return at;
    }
    trace_output_show::quoted(stdout, out, at, trace_input_session::word(line, n - 1))
}

// word n is not of its kind
fn put_wrong(
    stdout: Stdout,
    n: usize,
    kind: Kind,
    line: &[u8],
    out: &mut [u8],
    at: usize,
) -> usize {
    if n == 1 {
        let p = put_word(stdout, n, line, out, at);
        return trace_output_show::put(stdout, out, p, b" is no command\n");
    }
    let p = trace_output_show::whole_after(stdout, out, at, b"word ", n as u64);
    let q = trace_output_show::put(stdout, out, p, b", ");
    let r = put_word(stdout, n, line, out, q);
    if matches!(kind, Kind::End) {
        return trace_output_show::put(stdout, out, r, b", is one too many\n");
    }
    let t = trace_output_show::put(stdout, out, r, b", is no ");
    let u = put_kind(stdout, kind, out, t);
    trace_output_show::put(stdout, out, u, b"\n")
}

// after n words another is missing
fn put_missing(stdout: Stdout, n: usize, kind: Kind, out: &mut [u8], at: usize) -> usize {
    let p = trace_output_show::whole_after(
        stdout,
        out,
        at,
        b"word ",
        std::num::wrapping_add_u64(n as u64, 1),
    );
    let q = trace_output_show::put(stdout, out, p, b" is missing: a ");
    let r = put_kind(stdout, kind, out, q);
    trace_output_show::put(stdout, out, r, b"\n")
}

// What is said of a line by its words; nothing where they are as they should be.
pub fn put(stdout: Stdout, said: Line, line: &[u8], out: &mut [u8], at: usize) -> usize {
    match said {
        Line::Nothing => at,
        Line::Call {
            command: _,
            words: _,
        } => at,
        Line::Missing { words, kind } => put_missing(stdout, words, kind, out, at),
        Line::Wrong { word, kind } => put_wrong(stdout, word, kind, line, out, at),
    }
}
