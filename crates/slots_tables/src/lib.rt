// The matrix's lent tables: which places a matrix names, and what is written to and judged of them. The definitions are
// in specs/Tables.antt.
#![tactic(auto)]

ghost use Rattle.std.specs.Prelude.{◌≡◌, not, [], ◌∷◌, ◌≤◌, ◌<◌, eqb, ltb, length};
ghost use Rattle.refusal.specs.Judge.{judged, ◌when◌};
ghost use Rattle.refusal.specs.Refusal.{code_of};
ghost use Rattle.config.specs.Sizes.{slots};
ghost use Rattle.curve_table.specs.Table.{points};
ghost use Rattle.slots_tables.specs.Rows.{finite_row, curve_allowed};
ghost use Rattle.slots_tables.specs.Tables.{places, slot_place, tables_need, with_table, with_tables, is_table};
ghost use Rattle.slots_tables.specs.Tables.{slot_names, any_names, names_table, place_allowed, allowed_where};
ghost use Rattle.slots_tables.specs.Tables.{slot_allowed, slots_allowed, named_allowed};

use config::SLOTS;
use curve_table::POINTS;
use refusal::Refusal;
use state::{Matrix, NoteCurve, Slot};

// two places a slot, then the velocity curve's and the key curve's
pub const VELOCITY_PLACE: usize = 2 * SLOTS;

pub const KEY_PLACE: usize = 2 * SLOTS + 1;

pub const PLACES: usize = 2 * SLOTS + 2;

// what the tables of a matrix take
pub const TABLES: usize = PLACES * POINTS;

// the place of slot n at a position, 0 the source's, 1 the aux's
pub fn slot_place(n: usize, position: usize) -> usize
    requires { (n < slots) × (position < 2) }
    ensures { (result ≡ slot_place n position) × (result < places) }
{
    2 * n + position
}

// ---- which tables a matrix names

fn is_table(curve: NoteCurve) -> bool
    ensures { result ≡ is_table curve }
{
    curve == NoteCurve::Table
}

#[tactic(auto, unfolding(crate::specs::Tables::slot_names))]
fn slot_names(slot: Slot) -> bool
    ensures { result ≡ slot_names slot }
{
    !curve_table::is_linear(slot.source_curve) || !curve_table::is_linear(slot.aux_curve)
}

fn any_names(slot: [Slot; SLOTS]) -> bool
    ensures { result ≡ any_names slot }
{
    for i in 0..SLOTS {
        let s = slot[i];
        if slot_names(s) {
            return true;
        }
    }
    false
}

// whether a curve of the matrix is a table
#[tactic(auto, unfolding(crate::specs::Tables::names_table))]
pub fn names_table(matrix: Matrix) -> bool
    ensures { result ≡ names_table matrix }
{
    is_table(matrix.velocity) || is_table(matrix.key) || any_names(matrix.slot)
}

// ---- writing tables

// the table at a place
pub fn write_table(tables: &mut [f32], place: usize, table: &[f32])
    requires { (place < places) × (tables_need ≤ length tables.old) × (length table.now ≡ points) }
    ensures { tables.new ≡ with_table tables.old place table.now }
{
    let start = place * POINTS;
    let end = start + POINTS;
    list::copy_part(tables, start, end, table);
}

// all places take the numbers of the others
pub fn write_tables(tables: &mut [f32], others: &[f32])
    requires { (tables_need ≤ length tables.old) × (tables_need ≤ length others.now) }
    ensures { tables.new ≡ with_tables tables.old others.now }
{
    let start = 0usize;
    let end = TABLES;
    list::copy_part(tables, start, end, &others[start..end]);
}

// ---- judging the named tables

// whether a table may hold the numbers that stand at the place, as far as the slice reaches
fn place_allowed(tables: &[f32], place: usize) -> bool
    requires { place < places }
    ensures { result ≡ place_allowed tables.now place }
{
    let start = place * POINTS;
    let end = start + POINTS;
    let len = tables.len();
    if len <= start {
        return true;
    }
    if len <= end {
        return curve_table::numbers_allowed(&tables[start..len]);
    }
    curve_table::numbers_allowed(&tables[start..end])
}

// the same of a place that is named; a place that is not may hold anything
fn allowed_where(named: bool, tables: &[f32], place: usize) -> bool
    requires { place < places }
    ensures { result ≡ allowed_where named tables.now place }
{
    !named || place_allowed(tables, place)
}

// the two places of slot n
#[tactic(auto, unfolding(crate::specs::Tables::slot_allowed))]
fn slot_allowed(tables: &[f32], n: usize, slot: Slot) -> bool
    requires { n < slots }
    ensures { result ≡ slot_allowed tables.now n slot }
{
    let source = !curve_table::is_linear(slot.source_curve);
    let aux = !curve_table::is_linear(slot.aux_curve);
    allowed_where(source, tables, slot_place(n, 0)) && allowed_where(aux, tables, slot_place(n, 1))
}

fn slots_allowed(tables: &[f32], slot: [Slot; SLOTS]) -> bool
    ensures { result ≡ slots_allowed tables.now 0 slot }
{
    for i in 0..SLOTS {
        let s = slot[i];
        if !slot_allowed(tables, i, s) {
            return false;
        }
    }
    true
}

// whether a table may hold every number of a named place, as far as the slice reaches
#[tactic(auto, unfolding(crate::specs::Tables::named_allowed))]
pub fn named_allowed(matrix: Matrix, tables: &[f32]) -> bool
    ensures { result ≡ named_allowed matrix tables.now }
{
    allowed_where(is_table(matrix.velocity), tables, VELOCITY_PLACE)
        && allowed_where(is_table(matrix.key), tables, KEY_PLACE)
        && slots_allowed(tables, matrix.slot)
}

// ---- rows of one lent table

// rows 6, 14 and 15 of a lent table
pub fn check_table(allowed: bool, tables: usize, table: usize) -> Result<(), Refusal>
    ensures { code_of result ≡ judged (finite_row allowed ∷ 14 when ltb tables tables_need
        ∷ 15 when not (eqb table points) ∷ []) }
{
    refusal::when(!allowed, Refusal::Number)?;
    refusal::when(tables < TABLES, Refusal::Memory)?;
    refusal::when(table != POINTS, Refusal::Length)
}

// whether a curve may hold the table's numbers and the seconds
#[tactic(auto, unfolding(crate::specs::Rows::curve_allowed))]
pub fn curve_allowed(table: &[f32], rise: f32, fall: f32) -> bool
    ensures { result ≡ curve_allowed table.now rise fall }
{
    curve_table::numbers_allowed(table) && number::is_finite(rise) && number::is_finite(fall)
}
