// Curves: the public calls on tables. The definitions that contracts cite are in specs/CurveCalls.antt and in the crate
// curve_table.
#![tactic(auto)]

ghost use Rattle.std.specs.Prelude.{◌≡◌};
ghost use Rattle.curve_table.specs.Curve.{is_linear};
ghost use Rattle.curve.specs.CurveCalls.{looked_said, lookup_call, slewed_said, slew_call};
ghost use Rattle.curve.specs.CurveCalls.{diagonal_table};

use curve_table::{Curve, POINTS, Seconds};
use refusal::Refusal;

// the table at x
pub fn lookup(table: &[f32], x: f32) -> Result<f32, Refusal>
    ensures { looked_said result ≡ lookup_call table.now x }
{
    curve_table::check_table(table)?;
    Ok(curve_table::lookup(table, x))
}

// whether a curve changes nothing
pub fn is_linear(curve: Curve) -> bool
    ensures { result ≡ is_linear curve }
{
    curve_table::is_linear(curve)
}

// a curve's rise and fall in seconds, below 0 taken as 0
pub fn slew(curve: Curve) -> Result<Seconds, Refusal>
    ensures { slewed_said result ≡ slew_call curve }
{
    curve_table::check_curve(curve)?;
    Ok(curve_table::seconds_of(curve))
}

// the table that maps each number from 0 to 1 to itself
pub fn diagonal() -> [f32; POINTS]
    ensures { result ≡ diagonal_table }
{
    let mut points = [0.0f32; POINTS];
    for i in 0..POINTS {
        points[i] = i as f32 / 512.0;
    }
    points
}
