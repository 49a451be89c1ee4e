// The tables of a session. The numbers of all tables stand in one memory, one table after the other; entry i of the list
// has its place and length in two numbers of `places`.
#![tactic(auto)]

ghost use Rattle.std.specs.Prelude.{◌+◌, ◌≤◌, length};

mod spec;

pub use spec::{Unmade, make};

// The most tables.
pub const TABLES: usize = 662;

// where the numbers of entry i begin
pub fn place(places: &[usize], i: usize) -> usize {
    if TABLES <= i || places.len() <= 2 * i {
        return 0;
    }
    places[2 * i]
}

// how many numbers entry i has
pub fn len(places: &[usize], i: usize) -> usize {
    if TABLES <= i || places.len() <= 2 * i + 1 {
        return 0;
    }
    places[2 * i + 1]
}

// entry i has n numbers from `at` on
pub fn set_place(places: &mut [usize], i: usize, at: usize, n: usize) {
    if TABLES <= i || places.len() <= 2 * i + 1 {
        return;
    }
    places[2 * i] = at;
    places[2 * i + 1] = n;
}

// the numbers of entry i
pub fn table<'a>(numbers: &'a [f32], places: &[usize], i: usize) -> &'a [f32] {
    part(numbers, place(places, i), len(places, i))
}

fn part(numbers: &[f32], at: usize, n: usize) -> &[f32] {
    if numbers.len() < n || numbers.len() - n < at {
        return &numbers[..0];
    }
    &numbers[at..at + n]
}

// A loop, since std has no copy inside a slice.
fn moved(numbers: &mut [f32], from: usize, to: usize, n: usize)
    requires { (from + n ≤ length numbers.old) × (to + n ≤ length numbers.old) }
{
    for i in 0..n {
        numbers[to + i] = numbers[from + i];
    }
}

// n numbers from `from` on are copied to `to`; none where either is outside
pub fn copy_down(numbers: &mut [f32], from: usize, to: usize, n: usize) {
    if numbers.len() < n || numbers.len() - n < from || numbers.len() - n < to {
        return;
    }
    moved(numbers, from, to, n);
}
