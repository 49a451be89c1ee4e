// The fields of a slot's line, from word 2 to before word n: the last of each name counts, and one that is not there is the empty slot's.
use crate::curves::{Table, named};
use curve_table::Curve;
use state::{Polarity, Slot};

// What a slot's line says: the slot, and which tables its curves name.
#[derive(Clone, Copy)]
pub struct SlotLine {
    pub slot: Slot,
    pub source_table: Option<Table>,
    pub aux_table: Option<Table>,
}

#[derive(Clone, Copy)]
struct CurveWord {
    curve: Curve,
    table: Option<Table>,
}

// `lin`, or `TABLE:RISE:FALL`
fn curve_of(w: &[u8], book: &[usize]) -> CurveWord {
    if trace_input_session::is(w, b"lin") {
        return CurveWord {
            curve: Curve::Linear,
            table: None,
        };
    }
    let rest = trace_input_session::after(w, 58);
    let curve = Curve::Table {
        rise: trace_input_words::float(trace_input_session::before(rest, 58)),
        fall: trace_input_words::float(trace_input_session::after(rest, 58)),
    };
    CurveWord {
        curve,
        table: named(trace_input_session::before(w, 58), book),
    }
}

// the value of the last field of a name; the usual one where there is none
fn field<'a>(line: &'a [u8], n: usize, name: &[u8], usual: &'a [u8]) -> &'a [u8] {
    let mut value = usual;
    let mut p = trace_input_session::place(line, 2);
    for _ in 2..n {
        let w = trace_input_session::word_at(line, p);
        if trace_input_session::is(trace_input_session::before(w, 61), name) {
            value = trace_input_session::after(w, 61);
        }
        p = trace_input_session::next(line, p);
    }
    value
}

// the slot of a line, with these curves
fn slot_of(line: &[u8], n: usize, source_curve: Curve, aux_curve: Curve) -> Slot {
    let source = trace_input_words::pick(field(line, n, b"src", b"-"));
    let aux = trace_input_words::pick(field(line, n, b"aux", b"-"));
    let destination = trace_input_words::aim(field(line, n, b"dst", b"-"));
    let polarity = trace_input_words::polarity(field(line, n, b"pol", b"u"));
    Slot {
        source,
        source_curve,
        amount: trace_input_words::float(field(line, n, b"amt", b"00000000")),
        polarity,
        destination,
        aux,
        aux_invert: trace_input_words::flag(field(line, n, b"inv", b"0")),
        aux_curve,
        output: trace_input_words::float(field(line, n, b"out", b"3F800000")),
        bypass: trace_input_words::flag(field(line, n, b"byp", b"0")),
    }
}

// the slot of a line, and its tables
pub fn slot_line(line: &[u8], n: usize, book: &[usize]) -> SlotLine {
    let a = curve_of(field(line, n, b"sc", b"lin"), book);
    let b = curve_of(field(line, n, b"ac", b"lin"), book);
    let source_curve = a.curve;
    let aux_curve = b.curve;
    let slot = slot_of(line, n, source_curve, aux_curve);
    SlotLine {
        slot,
        source_table: a.table,
        aux_table: b.table,
    }
}
