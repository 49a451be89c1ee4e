// Lines about the matrix: tables by name, slots, note curves.
use crate::fields::{SlotLine, slot_line};
use crate::{DESK, NUMBERS};
use curve_table::Curve;
use matrix::{CurveSlot, NoteSlot};
use refusal::Refusal;
use state::Matrix;
use trace_grammar::Editing;
use trace_stops::{Fault, Limit, Stop};
use trace_store_names::Unmade;

// ---- tables by name

// the place of a name among the tables; their count where there is none
fn found(w: &[u8], book: &[usize]) -> usize {
    trace_store_book::name_found(
        book,
        0,
        trace_store_book::get(book, trace_store_book::COUNT),
        w,
    )
}

// whether entry i has this length
fn is_same(book: &[usize], i: usize, len: usize) -> bool {
    if i < trace_store_book::get(book, trace_store_book::COUNT) {
        return trace_store_names::len(book, trace_store_book::sum(trace_store_book::NAMED, i))
            == len;
    }
    false
}

fn counted(book: &mut [usize], i: usize, len: usize) {
    let used = trace_store_book::get(book, trace_store_book::USED);
    trace_store_names::set_place(
        book,
        trace_store_book::sum(trace_store_book::NAMED, i),
        used,
        len,
    );
    trace_store_book::set(
        book,
        trace_store_book::USED,
        trace_store_book::sum(used, len),
    );
    if trace_store_book::get(book, trace_store_book::COUNT) == i {
        trace_store_book::set(book, trace_store_book::COUNT, trace_store_book::sum(i, 1));
    }
}

// the table that stands behind the numbers in use is named w: kept there, or copied over a table of that name and length
fn kept(w: &[u8], len: usize, book: &mut [usize], numbers: &mut [f32]) -> Result<(), Limit> {
    let i = found(w, book);
    if is_same(book, i, len) {
        let at = trace_store_names::place(book, trace_store_book::sum(trace_store_book::NAMED, i));
        trace_store_names::copy_down(
            numbers,
            trace_store_book::get(book, trace_store_book::USED),
            at,
            len,
        );
        return Ok(());
    }
    if trace_store_book::TABLES_NAMED <= i {
        return Err(Limit::Tables);
    }
    if !trace_store_book::set_name(book, i, w) {
        return Err(Limit::Tables);
    }
    counted(book, i, len);
    Ok(())
}

// the length of a table that was made behind the numbers in use, where there is room for it
fn length_of(made: Result<usize, Unmade>, used: usize) -> Result<usize, Stop> {
    match made {
        Ok(len) if trace_store_book::sum(used, len) <= NUMBERS => Ok(len),
        Err(Unmade::NoEntry) => Err(Stop::Error(Fault::NoEntry)),
        _ => Err(Stop::TooLarge(Limit::TableNumbers)),
    }
}

// `table NAME SPEC`
fn on_table(line: &[u8], book: &mut [usize], numbers: &mut [f32]) -> Result<(), Stop> {
    let used = trace_store_book::get(book, trace_store_book::USED);
    let len = length_of(trace_store_names::make(line, numbers, used), used)?;
    kept(trace_input_session::word(line, 1), len, book, numbers)?;
    Ok(())
}

// A table that a curve names: the diagonal, or one by its number.
// No Option: the diagonal is a table too.
#[derive(Clone, Copy)]
pub enum Table {
    Diagonal,
    Named(usize),
}

// The table of a name, where there is one.
pub fn named(w: &[u8], book: &[usize]) -> Option<Table> {
    if trace_input_session::is(w, b"diag") {
        return Some(Table::Diagonal);
    }
    let i = found(w, book);
    if i < trace_store_book::get(book, trace_store_book::COUNT) {
        return Some(Table::Named(i));
    }
    None
}

// table i by name
fn table_of<'a>(numbers: &'a [f32], book: &[usize], i: usize) -> &'a [f32] {
    trace_store_names::table(
        numbers,
        book,
        trace_store_book::sum(trace_store_book::NAMED, i),
    )
}

// what two calls come to: refused by the lower row where both are
fn lowest(a: Result<(), Refusal>, b: Result<(), Refusal>) -> Result<(), Refusal> {
    match (a, b) {
        (Err(x), Err(y)) => Err(if x.number() < y.number() { x } else { y }),
        _ => a.and(b),
    }
}

// how many numbers of the matrix's tables are lent, of a desk of so many numbers
fn tables_lent(book: &[usize], desk: usize) -> usize {
    trace_store_book::lent_by(
        book,
        trace_store_book::MATRIX_TABLES,
        66690,
        trace_store_book::less(desk, DESK),
    )
}

// whether setting a table is refused, where one is named
fn judged(
    named: Option<Table>,
    book: &[usize],
    numbers: &[f32],
    desk: usize,
) -> Result<(), Refusal> {
    let Some(table) = named else {
        return Ok(());
    };
    let alone = judged_alone(table, book, numbers);
    let short = tables_lent(book, desk) < 66690;
    lowest(refusal::when(short, Refusal::Memory), alone)
}

// whether a table by itself is refused
fn judged_alone(table: Table, book: &[usize], numbers: &[f32]) -> Result<(), Refusal> {
    match table {
        Table::Diagonal => Ok(()),
        Table::Named(i) => {
            curve::lookup(table_of(numbers, book, i), 0.0)?;
            Ok(())
        }
    }
}

// ---- slots

// the matrix with a slot's curve set to a table, where one is named
fn curve_set(
    m: Matrix,
    tables: &mut [f32],
    n: usize,
    which: CurveSlot,
    curve: Curve,
    table: &[f32],
) -> Matrix {
    match curve {
        Curve::Linear => m,
        Curve::Table { rise, fall } => {
            matrix::set_curve(m, tables, n, which, table, rise, fall).unwrap_or(m)
        }
    }
}

// the same, the tables standing in the desk
fn desk_set(
    m: Matrix,
    desk: &mut [f32],
    n: usize,
    which: CurveSlot,
    curve: Curve,
    table: &[f32],
) -> Matrix {
    if desk.len() < DESK {
        return m;
    }
    curve_set(m, &mut desk[DESK..], n, which, curve, table)
}

fn diagonal_set(m: Matrix, desk: &mut [f32], n: usize, which: CurveSlot, curve: Curve) -> Matrix {
    let diagonal = curve::diagonal();
    desk_set(m, desk, n, which, curve, &diagonal)
}

fn table_set(
    m: Matrix,
    desk: &mut [f32],
    n: usize,
    which: CurveSlot,
    curve: Curve,
    table: Option<Table>,
    book: &[usize],
    numbers: &[f32],
) -> Matrix {
    match table {
        Some(Table::Named(i)) => { desk_set(m, desk, n, which, curve, table_of(numbers, book, i)) }
        _ => diagonal_set(m, desk, n, which, curve),
    }
}

// the tables of a slot's line, set
fn tables_set(
    m: Matrix,
    n: usize,
    l: SlotLine,
    book: &[usize],
    numbers: &[f32],
    desk: &mut [f32],
) -> Matrix {
    let slot = l.slot;
    let source_curve = slot.source_curve;
    let aux_curve = slot.aux_curve;
    let source = CurveSlot::Source;
    let aux = CurveSlot::Aux;
    let a = table_set(
        m,
        desk,
        n,
        source,
        source_curve,
        l.source_table,
        book,
        numbers,
    );
    table_set(a, desk, n, aux, aux_curve, l.aux_table, book, numbers)
}

// whether setting two tables is refused
fn both_judged(
    a: Option<Table>,
    b: Option<Table>,
    book: &[usize],
    numbers: &[f32],
    desk: usize,
) -> Result<(), Refusal> {
    lowest(
        judged(a, book, numbers, desk),
        judged(b, book, numbers, desk),
    )
}

// the slot of a line and its tables, set or refused by the lowest row of its calls
fn slot_set(
    m: Matrix,
    i: usize,
    l: SlotLine,
    book: &[usize],
    numbers: &[f32],
    desk: &mut [f32],
) -> Result<Matrix, Refusal> {
    let slot = l.slot;
    let set = matrix::set_slot(m, i, slot);
    let tables = both_judged(l.source_table, l.aux_table, book, numbers, desk.len());
    lowest(set.map(|_| ()), tables)?;
    Ok(tables_set(set?, i, l, book, numbers, desk))
}

// `slot N FIELD=VALUE ..`
fn on_slot(
    m: Matrix,
    line: &[u8],
    n: usize,
    book: &[usize],
    numbers: &[f32],
    desk: &mut [f32],
) -> Result<Matrix, Refusal> {
    let i = trace_input_words::number_at(line, 1);
    matrix::slot(m, i)?;
    slot_set(m, i, slot_line(line, n, book), book, numbers, desk)
}

// ---- note curves

fn note_set(
    m: Matrix,
    which: NoteSlot,
    table: Option<usize>,
    book: &[usize],
    numbers: &[f32],
    desk: &mut [f32],
) -> Matrix {
    let Some(i) = table else {
        return matrix::set_note_linear(m, which);
    };
    if desk.len() < DESK {
        return m;
    }
    matrix::set_note_curve(m, &mut desk[DESK..], which, table_of(numbers, book, i)).unwrap_or(m)
}

// What a note's line says: the tables of its curves, none where they are linear, and two marks.
#[derive(Clone, Copy)]
struct NoteLine {
    velocity: Option<usize>,
    key: Option<usize>,
    glide: bool,
    legato: bool,
}

// the table that a note's word names; none at the diagonal, which is linear
fn note_table(w: &[u8], book: &[usize]) -> Option<usize> {
    match named(w, book) {
        Some(Table::Named(i)) => Some(i),
        _ => None,
    }
}

fn note_line(line: &[u8], book: &[usize]) -> NoteLine {
    NoteLine {
        velocity: note_table(trace_input_session::word(line, 1), book),
        key: note_table(trace_input_session::word(line, 2), book),
        glide: trace_input_words::flag_at(line, 3),
        legato: trace_input_words::flag_at(line, 4),
    }
}

fn notes_set(m: Matrix, l: NoteLine, book: &[usize], numbers: &[f32], desk: &mut [f32]) -> Matrix {
    let velocity = NoteSlot::Velocity;
    let key = NoteSlot::Key;
    let first = note_set(m, velocity, l.velocity, book, numbers, desk);
    let second = note_set(first, key, l.key, book, numbers, desk);
    let third = matrix::set_glide(second, l.glide);
    matrix::set_velocity_legato(third, l.legato)
}

// `note VELOCITY_TABLE KEY_TABLE GLIDE VELOCITY_LEGATO`
fn on_note(
    m: Matrix,
    line: &[u8],
    book: &[usize],
    numbers: &[f32],
    desk: &mut [f32],
) -> Result<Matrix, Refusal> {
    let l = note_line(line, book);
    let velocity = l.velocity.map(|i| Table::Named(i));
    let key = l.key.map(|i| Table::Named(i));
    both_judged(velocity, key, book, numbers, desk.len())?;
    Ok(notes_set(m, l, book, numbers, desk))
}

// ---- the host's own writing

fn store(numbers: &mut [f32], at: usize, x: f32) {
    if numbers.len() <= at {
        return;
    }
    numbers[at] = x;
}

// `matrix_put PLACE ENTRY X`
fn on_matrix_put(line: &[u8], desk: &mut [f32]) {
    let w = trace_input_words::pair(line);
    let at = DESK + trace_store_book::at_most(w.a, 129) * 513 + trace_store_book::at_most(w.b, 512);
    store(desk, at, trace_input_words::float_at(line, 3));
}

// The matrix after a line of n words about it and its tables.
pub fn matrix_line(
    m: Matrix,
    c: Editing,
    line: &[u8],
    n: usize,
    book: &mut [usize],
    numbers: &mut [f32],
    desk: &mut [f32],
) -> Result<Matrix, Stop> {
    match c {
        Editing::Table => on_table(line, book, numbers)?,
        Editing::Slot => return Ok(on_slot(m, line, n, book, numbers, desk)?),
        Editing::Note => return Ok(on_note(m, line, book, numbers, desk)?),
        Editing::Clear => return Ok(matrix::new()),
        Editing::MatrixPut => on_matrix_put(line, desk),
    }
    Ok(m)
}
