// The matrix as data: its slots, their edits, and the tables lent with them. The definitions that contracts cite are in
// specs/.
#![tactic(auto)]

ghost use Rattle.std.specs.Prelude.{◌≡◌, Ok, [], ◌∷◌, ◌<◌};
ghost use Rattle.refusal.specs.Judge.{judged};
ghost use Rattle.config.specs.Sizes.{slots};
ghost use Rattle.slots.specs.Slots.{empty_slot, is_empty_slot, first_empty};
ghost use Rattle.slots_tables.specs.Tables.{places};
ghost use Rattle.slots.specs.Matrix.{new_matrix, slots_of, with_slot};
ghost use Rattle.matrix.specs.Which.{with_curve, with_note, place_of, note_place};
ghost use Rattle.slots_tables.specs.Rows.{finite_row};
ghost use Rattle.matrix.specs.Answers.{slot_said, edited_said, placed_said, polarity_said, depth_said};
ghost use Rattle.matrix.specs.Edits.{slot_row, answered, placed, slot_at, set_slot, add_route, remove_slot, set_bypass};
ghost use Rattle.matrix.specs.Edits.{set_slot_amount, set_slot_output, set_polarity, set_aux, set_linear};
ghost use Rattle.matrix.specs.Edits.{remove_destination, set_glide, set_velocity_legato, set_note_linear, set_curve};
ghost use Rattle.matrix.specs.Edits.{set_note_curve, matrix_allowed, by_source, sort_slots, load_matrix};
ghost use Rattle.matrix.specs.Replies.{placed_reply, add_says, drag_says, vibrato_says};
ghost use Rattle.matrix.specs.Routes.{drag_route, add_vibrato, create_vibrato, create_velocity_to_amp, drag_polarity};
ghost use Rattle.matrix.specs.Routes.{limit_depth};

use config::SLOTS;
use curve_table::Curve;
use refusal::Refusal;
use slots_tables::{KEY_PLACE, TABLES, VELOCITY_PLACE};
use state::{Matrix, NoteCurve, Polarity, Slot, Target};

// ---- answers

#[derive(Clone, Copy)]
pub enum CurveSlot {
    Source,
    Aux,
}

#[derive(Clone, Copy)]
pub enum NoteSlot {
    Velocity,
    Key,
}

#[derive(Clone, Copy)]
pub enum SortBy {
    Source,
    Destination,
}

// What became of a route: it stands at a slot of the new matrix, or there was no room for it and nothing changed.
#[derive(Clone, Copy)]
pub enum Added {
    At { slot: usize, matrix: Matrix },
    Full,
    NoFreeLfo,
}

#[derive(Clone, Copy)]
pub struct Removed {
    pub count: usize,
    pub matrix: Matrix,
}

// ---- slots

// the slot that nothing is assigned to
pub fn empty_slot() -> Slot
    ensures { result ≡ empty_slot }
{
    slots::empty_slot()
}

// a matrix of empty slots
pub fn new() -> Matrix
    ensures { result ≡ new_matrix }
{
    let empty = empty_slot();
    let slot = [empty; SLOTS];
    Matrix {
        slot,
        velocity: NoteCurve::Linear,
        key: NoteCurve::Linear,
        glide: false,
        velocity_legato: false,
    }
}

// whether nothing is assigned to the slot
pub fn is_empty(slot: Slot) -> bool
    ensures { result ≡ is_empty_slot slot }
{
    slots::is_empty(slot)
}

// the matrix's slots
pub fn slots(matrix: Matrix) -> [Slot; SLOTS]
    ensures { result ≡ slots_of matrix }
{
    matrix.slot
}

// slot n
pub fn slot(matrix: Matrix, n: usize) -> Result<Slot, Refusal>
    ensures { slot_said result ≡ slot_at matrix n }
{
    if SLOTS <= n {
        return Err(Refusal::Slot);
    }
    Ok(slots::slot_of(matrix, n))
}

// ---- what every edit of a slot has

// slot n becomes `slot` (row 5)
fn replace(matrix: Matrix, n: usize, slot: Slot) -> Result<Matrix, Refusal>
    ensures { edited_said matrix result ≡ answered (judged (slot_row n ∷ [])) matrix (with_slot matrix n slot) }
{
    if SLOTS <= n {
        return Err(Refusal::Slot);
    }
    let mut next = matrix;
    next.slot[n] = slot;
    Ok(next)
}

// the same where the numbers in it are finite (row 5, then row 6)
fn replace_finite(matrix: Matrix, n: usize, finite: bool, slot: Slot) -> Result<Matrix, Refusal>
    ensures { edited_said matrix result
        ≡ answered (judged (slot_row n ∷ finite_row finite ∷ [])) matrix (with_slot matrix n slot) }
{
    let next = replace(matrix, n, slot)?;
    refusal::when(!finite, Refusal::Number)?;
    Ok(next)
}

// ---- edits of one slot

// slot n becomes `slot`, as it is
pub fn set_slot(matrix: Matrix, n: usize, slot: Slot) -> Result<Matrix, Refusal>
    ensures { edited_said matrix result ≡ set_slot matrix n slot }
{
    replace_finite(matrix, n, slots::numbers_finite(slot), slot)
}

// slot n becomes empty
pub fn remove(matrix: Matrix, n: usize) -> Result<Matrix, Refusal>
    ensures { edited_said matrix result ≡ remove_slot matrix n }
{
    replace(matrix, n, empty_slot())
}

// slot n is switched off or on
pub fn set_bypass(matrix: Matrix, n: usize, bypass: bool) -> Result<Matrix, Refusal>
    ensures { edited_said matrix result ≡ set_bypass matrix n bypass }
{
    let slot = slots::with_bypass(slots::slot_of(matrix, n), bypass);
    replace(matrix, n, slot)
}

// slot n's amount, -1 to 1
pub fn set_amount(matrix: Matrix, n: usize, amount: f32) -> Result<Matrix, Refusal>
    ensures { edited_said matrix result ≡ set_slot_amount matrix n amount }
{
    let slot = slots::with_amount(slots::slot_of(matrix, n), slots::kept_amount(amount));
    replace_finite(matrix, n, number::is_finite(amount), slot)
}

// slot n's output, 0 to 1
pub fn set_output(matrix: Matrix, n: usize, output: f32) -> Result<Matrix, Refusal>
    ensures { edited_said matrix result ≡ set_slot_output matrix n output }
{
    let slot = slots::with_output(slots::slot_of(matrix, n), slots::kept_output(output));
    replace_finite(matrix, n, number::is_finite(output), slot)
}

// slot n's polarity
pub fn set_polarity(matrix: Matrix, n: usize, polarity: Polarity) -> Result<Matrix, Refusal>
    ensures { edited_said matrix result ≡ set_polarity matrix n polarity }
{
    let slot = slots::with_polarity(slots::slot_of(matrix, n), polarity);
    replace(matrix, n, slot)
}

// slot n's aux source, or none, and whether it is inverted
pub fn set_aux(
    matrix: Matrix,
    n: usize,
    aux: Option<usize>,
    invert: bool,
) -> Result<Matrix, Refusal>
    ensures { edited_said matrix result ≡ set_aux matrix n aux invert }
{
    let slot = slots::with_aux(slots::slot_of(matrix, n), aux, invert);
    replace(matrix, n, slot)
}

fn with_curve(slot: Slot, which: CurveSlot, curve: Curve) -> Slot
    ensures { result ≡ with_curve which curve slot }
{
    match which {
        CurveSlot::Source => slots::with_source_curve(slot, curve),
        CurveSlot::Aux => slots::with_aux_curve(slot, curve),
    }
}

// that curve of slot n becomes linear
pub fn set_linear(matrix: Matrix, n: usize, which: CurveSlot) -> Result<Matrix, Refusal>
    ensures { edited_said matrix result ≡ set_linear matrix n which }
{
    let slot = with_curve(slots::slot_of(matrix, n), which, Curve::Linear);
    replace(matrix, n, slot)
}

// ---- adding a route

// the route in the first empty slot, where there is one
fn place(matrix: Matrix, route: Slot) -> Added
    ensures { placed_said matrix (Ok result) ≡ placed 0 matrix (first_empty matrix.slot) route }
{
    let slot = slots::first_empty(matrix.slot);
    if SLOTS <= slot {
        return Added::Full;
    }
    let mut next = matrix;
    next.slot[slot] = route;
    Added::At { slot, matrix: next }
}

// a route in the first empty slot
pub fn add(
    matrix: Matrix,
    source: usize,
    destination: Target,
    amount: f32,
    polarity: Polarity,
) -> Result<Added, Refusal>
    ensures value { placed_said matrix result ≡ add_route matrix source destination amount polarity }
    ensures reply { placed_reply (placed_said matrix result) ≡ add_says matrix amount }
{
    refusal::when(!number::is_finite(amount), Refusal::Number)?;
    let route = slots::route_slot(source, destination, slots::kept_amount(amount), polarity);
    Ok(place(matrix, route))
}

// ---- routes that the editor makes

// a route as dragging the source onto a control at that position makes it
pub fn drag(
    matrix: Matrix,
    source: usize,
    destination: Target,
    position: f32,
    amount: f32,
    toggle: bool,
    limit: bool,
) -> Result<Added, Refusal>
    ensures value { placed_said matrix result ≡ drag_route matrix source destination position amount toggle limit }
    ensures reply { placed_reply (placed_said matrix result) ≡ drag_says matrix position amount }
{
    refusal::when(
        !matrix_editing::both_finite(position, amount),
        Refusal::Number,
    )?;
    let polarity = matrix_editing::polarity_at(position, toggle);
    let dragged = matrix_editing::dragged_amount(position, polarity, amount, limit);
    let route = slots::route_slot(source, destination, slots::kept_amount(dragged), polarity);
    Ok(place(matrix, route))
}

// a route both ways from that LFO, with the mod wheel as its aux, in the first empty slot
fn vibrato(matrix: Matrix, lfo: usize, mod_wheel: usize, tuning: Target, amount: f32) -> Added
    ensures { placed_said matrix (Ok result) ≡ add_vibrato matrix lfo mod_wheel tuning amount }
{
    let route = slots::route_slot(lfo, tuning, slots::kept_amount(amount), Polarity::Bipolar);
    place(matrix, slots::with_aux(route, Some(mod_wheel), false))
}

// a vibrato from the first of the LFOs that no slot uses
pub fn create_vibrato(
    matrix: Matrix,
    lfos: &[usize],
    mod_wheel: usize,
    tuning: Target,
    amount: f32,
) -> Result<Added, Refusal>
    ensures value { placed_said matrix result ≡ create_vibrato matrix lfos.now mod_wheel tuning amount }
    ensures reply { placed_reply (placed_said matrix result) ≡ vibrato_says matrix lfos.now amount }
{
    refusal::when(!number::is_finite(amount), Refusal::Number)?;
    match matrix_editing::first_free(lfos, matrix.slot) {
        None => Ok(Added::NoFreeLfo),
        Some(lfo) => Ok(vibrato(matrix, lfo, mod_wheel, tuning, amount)),
    }
}

// a route one way from the velocity to the amp
pub fn create_velocity_to_amp(
    matrix: Matrix,
    velocity: usize,
    amp: Target,
    amount: f32,
) -> Result<Added, Refusal>
    ensures value { placed_said matrix result ≡ create_velocity_to_amp matrix velocity amp amount }
    ensures reply { placed_reply (placed_said matrix result) ≡ add_says matrix amount }
{
    add(matrix, velocity, amp, amount, Polarity::Unipolar)
}

// the polarity of a route dragged onto a control at that position
pub fn drag_polarity(position: f32, toggle: bool) -> Result<Polarity, Refusal>
    ensures { polarity_said result ≡ drag_polarity position toggle }
{
    refusal::when(!number::is_finite(position), Refusal::Number)?;
    Ok(matrix_editing::polarity_at(position, toggle))
}

// the amount, held to the travel that the position leaves
pub fn limit_depth(position: f32, polarity: Polarity, amount: f32) -> Result<f32, Refusal>
    ensures { depth_said result ≡ limit_depth position polarity amount }
{
    refusal::when(
        !matrix_editing::both_finite(position, amount),
        Refusal::Number,
    )?;
    Ok(matrix_editing::depth_at(position, polarity, amount))
}

// ---- removing a destination

// every slot that modulates the destination becomes empty
pub fn remove_destination(matrix: Matrix, destination: Target) -> Removed
    ensures { result ≡ remove_destination matrix destination }
{
    let slot = slots::clear_all(destination, matrix.slot);
    Removed {
        count: slots::count_aims(destination, matrix.slot),
        matrix: Matrix { slot, ..matrix },
    }
}

// ---- note curves

// whether note values glide
pub fn set_glide(matrix: Matrix, on: bool) -> Matrix
    ensures { result ≡ set_glide matrix on }
{
    Matrix {
        glide: on,
        ..matrix
    }
}

// whether a legato note sets the velocity
pub fn set_velocity_legato(matrix: Matrix, on: bool) -> Matrix
    ensures { result ≡ set_velocity_legato matrix on }
{
    Matrix {
        velocity_legato: on,
        ..matrix
    }
}

fn with_note(matrix: Matrix, which: NoteSlot, curve: NoteCurve) -> Matrix
    ensures { result ≡ with_note matrix which curve }
{
    match which {
        NoteSlot::Velocity => slots::with_velocity(matrix, curve),
        NoteSlot::Key => slots::with_key(matrix, curve),
    }
}

// that note curve becomes linear
pub fn set_note_linear(matrix: Matrix, which: NoteSlot) -> Matrix
    ensures { result ≡ set_note_linear matrix which }
{
    with_note(matrix, which, NoteCurve::Linear)
}

// ---- tables

// the number of the place of a slot's curve
fn place_of(n: usize, which: CurveSlot) -> usize
    requires { n < slots }
    ensures { (result ≡ place_of n which) × (result < places) }
{
    match which {
        CurveSlot::Source => slots_tables::slot_place(n, 0),
        CurveSlot::Aux => slots_tables::slot_place(n, 1),
    }
}

// the number of the place of a note curve
fn note_place(which: NoteSlot) -> usize
    ensures { (result ≡ note_place which) × (result < places) }
{
    match which {
        NoteSlot::Velocity => VELOCITY_PLACE,
        NoteSlot::Key => KEY_PLACE,
    }
}

// that curve of slot n becomes a table with these seconds
pub fn set_curve(
    matrix: Matrix,
    tables: &mut [f32],
    n: usize,
    which: CurveSlot,
    table: &[f32],
    rise: f32,
    fall: f32,
) -> Result<Matrix, Refusal>
    ensures answer { edited_said matrix result ≡ (set_curve matrix tables.old n which table.now rise fall).answer }
    ensures lent { tables.new ≡ (set_curve matrix tables.old n which
        table.now rise fall).tables }
{
    refusal::when(SLOTS <= n, Refusal::Slot)?;
    let allowed = slots_tables::curve_allowed(table, rise, fall);
    slots_tables::check_table(allowed, tables.len(), table.len())?;
    let curve = Curve::Table { rise, fall };
    let slot = with_curve(slots::slot_of(matrix, n), which, curve);
    slots_tables::write_table(tables, place_of(n, which), table);
    replace(matrix, n, slot)
}

// that note curve becomes a table
pub fn set_note_curve(
    matrix: Matrix,
    tables: &mut [f32],
    which: NoteSlot,
    table: &[f32],
) -> Result<Matrix, Refusal>
    ensures answer { edited_said matrix result ≡ (set_note_curve matrix tables.old which table.now).answer }
    ensures lent { tables.new ≡ (set_note_curve matrix tables.old which
        table.now).tables }
{
    let allowed = curve_table::numbers_allowed(table);
    slots_tables::check_table(allowed, tables.len(), table.len())?;
    let next = with_note(matrix, which, NoteCurve::Table);
    slots_tables::write_table(tables, note_place(which), table);
    Ok(next)
}

// ---- sorting

fn by_source(by: SortBy) -> bool
    ensures { result ≡ by_source by }
{
    matches!(by, SortBy::Source)
}

// row 6 of a whole matrix
fn matrix_allowed(matrix: Matrix, tables: &[f32]) -> bool
    ensures { result ≡ matrix_allowed matrix tables.now }
{
    slots::all_finite(matrix.slot) && slots_tables::named_allowed(matrix, tables)
}

// the slots in order, their tables with them
pub fn sort(matrix: Matrix, tables: &mut [f32], by: SortBy) -> Result<Matrix, Refusal>
    ensures answer { edited_said matrix result ≡ (sort_slots matrix tables.old by).answer }
    ensures lent { tables.new ≡ (sort_slots matrix tables.old by).tables }
{
    if !matrix_allowed(matrix, tables) {
        return Err(Refusal::Number);
    }
    let slot = matrix.slot;
    let places = matrix_sorting::places_by(by_source(by), slot);
    let next = slots::with_slots(matrix, matrix_sorting::slots_at(places, slot));
    if !slots_tables::names_table(matrix) {
        return Ok(next);
    }
    if tables.len() < TABLES {
        return Err(Refusal::Memory);
    }
    matrix_sorting::move_tables(tables, places);
    Ok(next)
}

// ---- loading

// the matrix becomes the other, its tables with it
pub fn load(
    matrix: Matrix,
    tables: &mut [f32],
    other: Matrix,
    other_tables: &[f32],
) -> Result<Matrix, Refusal>
    ensures answer { edited_said matrix result ≡ (load_matrix matrix tables.old other other_tables.now).answer }
    ensures lent { tables.new ≡ (load_matrix matrix tables.old other
        other_tables.now).tables }
{
    if !matrix_allowed(other, other_tables) {
        return Err(Refusal::Number);
    }
    if !slots_tables::names_table(other) {
        return Ok(other);
    }
    if tables.len() < TABLES {
        return Err(Refusal::Memory);
    }
    if other_tables.len() < TABLES {
        return Err(Refusal::Memory);
    }
    slots_tables::write_tables(tables, other_tables);
    Ok(other)
}
