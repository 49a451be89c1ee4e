// Tables of 513 numbers and the curves that name them. The definitions that contracts cite are in specs/Table.antt.
#![tactic(auto)]

ghost use Rattle.std.specs.Prelude.{◌≡◌, ◌≤◌, length};
ghost use Rattle.refusal.specs.Refusal.{code_of};
ghost use Rattle.curve_table.specs.Table.{points, position, cell_at, cell_of, lookup_of, allowed, all_allowed};
ghost use Rattle.curve_table.specs.Table.{table_code};
ghost use Rattle.curve_table.specs.Curve.{is_linear, seconds_of, seconds_finite, curve_code};

use refusal::Refusal;

// the numbers of a table, and its last cell
pub const POINTS: usize = 513;

pub const LAST_CELL: usize = 511;

// a slot's curve: linear, or a table, whose numbers stand elsewhere, with its seconds
// No Option: linear is a curve of its own, as in the Rust.
#[derive(Clone, Copy)]
pub enum Curve {
    Linear,
    Table { rise: f32, fall: f32 },
}

// the seconds that full scale takes
#[derive(Clone, Copy)]
pub struct Seconds {
    pub rise: f32,
    pub fall: f32,
}

// where x lies in a table, from 0 to 512
pub fn position(x: f32) -> f32
    ensures { result ≡ position x }
{
    number::clamp(0.0, 1.0, x) * 512.0
}

// the cell of a position: the number of the point below it
pub fn cell_at(p: f32) -> usize
    ensures { result ≡ cell_at p }
{
    let whole = number::whole_part(p) as usize;
    if whole < LAST_CELL { whole } else { LAST_CELL }
}

// the cell of x
pub fn cell_of(x: f32) -> usize
    ensures { result ≡ cell_of x }
{
    cell_at(position(x))
}

// the table at x, between the two points that x lies between
pub fn lookup(table: &[f32], x: f32) -> f32
    requires { points ≤ length table.now }
    ensures { result ≡ lookup_of table.now x }
{
    let p = position(x);
    let i = cell_at(p);
    let a = table[i];
    let b = table[i + 1];
    a + (b - a) * (p - i as f32)
}

// whether a table may hold x
pub fn is_allowed(x: f32) -> bool
    ensures { result ≡ allowed x }
{
    -16.0 <= x && x <= 16.0
}

// whether a table may hold each number of the slice
pub fn numbers_allowed(table: &[f32]) -> bool
    ensures { result ≡ all_allowed table.now }
{
    table.iter().all(|x| is_allowed(*x))
}

// whether a lent table is accepted, or why it is not
pub fn check_table(table: &[f32]) -> Result<(), Refusal>
    ensures { code_of result ≡ table_code table.now }
{
    refusal::when(!numbers_allowed(table), Refusal::Number)?;
    refusal::when(table.len() != POINTS, Refusal::Length)
}

pub fn is_linear(curve: Curve) -> bool
    ensures { result ≡ is_linear curve }
{
    match curve {
        Curve::Linear => true,
        Curve::Table { rise: _, fall: _ } => false,
    }
}

// the seconds of a curve, below 0 taken as 0
pub fn seconds_of(curve: Curve) -> Seconds
    ensures { result ≡ seconds_of curve }
{
    match curve {
        Curve::Linear => Seconds {
            rise: 0.0,
            fall: 0.0,
        },
        Curve::Table { rise, fall } => Seconds {
            rise: number::max(rise, 0.0),
            fall: number::max(fall, 0.0),
        },
    }
}

// whether the seconds of a curve are finite
pub fn seconds_finite(curve: Curve) -> bool
    ensures { result ≡ seconds_finite curve }
{
    match curve {
        Curve::Linear => true,
        Curve::Table { rise, fall } => number::is_finite(rise) && number::is_finite(fall),
    }
}

// whether a curve is accepted, or why it is not
pub fn check_curve(curve: Curve) -> Result<(), Refusal>
    ensures { code_of result ≡ curve_code curve }
{
    refusal::when(!seconds_finite(curve), Refusal::Number)
}
