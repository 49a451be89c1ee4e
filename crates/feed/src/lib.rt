// The greedy order of a feed relation over places (document 01, Plan and route): specs/Order.antt has the definition.
#![tactic(auto)]

ghost use Rattle.std.specs.Prelude.{◌≡◌, ◌<◌, ◌≤◌, min};
ghost use Rattle.config.specs.Sizes.{slots};
ghost use Rattle.feed.specs.Numbers.{first_or};
ghost use Rattle.feed.specs.Order.{fed_by, free, next};
ghost use Rattle.feed.specs.Marks.{marked, unplaced, places_of, plan_order};

use config::SLOTS;

// a mark for each pair of places
pub const PAIRS: usize = SLOTS * SLOTS;

// Places in the order in which they are worked out: the first `count` of `place`, and zeros after them.
#[derive(Clone, Copy)]
pub struct Order {
    pub place: [usize; SLOTS],
    pub count: usize,
}

// Whether another unplaced place feeds b.
fn is_fed(feeds: &[bool; PAIRS], placed: &[bool; SLOTS], n: usize, b: usize) -> bool
    requires { (n ≤ slots) × (b < n) }
    ensures { result ≡ fed_by (marked feeds.now) (unplaced placed.now 0 n) b }
{
    for a in 0..n {
        if !placed[a] && feeds[a * SLOTS + b] && a != b {
            return true;
        }
    }
    false
}

// The lowest unplaced place that no other unplaced one feeds; n where there is none.
fn first_free(feeds: &[bool; PAIRS], placed: &[bool; SLOTS], n: usize) -> usize
    requires { n ≤ slots }
    ensures { result ≡ first_or n (free (marked feeds.now) (unplaced placed.now 0 n)) }
{
    for b in 0..n {
        if !placed[b] && !is_fed(feeds, placed, n, b) {
            return b;
        }
    }
    n
}

// The lowest unplaced place; 0 where there is none.
fn first_unplaced(placed: &[bool; SLOTS], n: usize) -> usize
    requires { n ≤ slots }
    ensures { result ≡ first_or 0 (unplaced placed.now 0 n) }
{
    for i in 0..n {
        if !placed[i] {
            return i;
        }
    }
    0
}

// The place to take next.
fn next_place(feeds: &[bool; PAIRS], placed: &[bool; SLOTS], n: usize) -> usize
    requires { n ≤ slots }
    ensures { result ≡ next (marked feeds.now) (unplaced placed.now 0 n) }
{
    let b = first_free(feeds, placed, n);
    if b < n {
        return b;
    }
    first_unplaced(placed, n)
}

// The order of the places below n, then zeros.
fn places(feeds: &[bool; PAIRS], n: usize) -> [usize; SLOTS]
    requires { n ≤ slots }
    ensures { result ≡ places_of feeds.now n }
{
    let mut out: [usize; SLOTS] = [0; SLOTS];
    let mut placed: [bool; SLOTS] = [false; SLOTS];
    for k in 0..n {
        let d = next_place(feeds, &placed, n);
        out[k] = d;
        placed[d] = true;
    }
    out
}

// The order of the places below n, n held to SLOTS.
pub fn plan_order(feeds: &[bool; PAIRS], n: usize) -> Order
    ensures { result ≡ plan_order feeds.now n }
{
    let count = n.min(SLOTS);
    Order {
        place: places(feeds, count),
        count,
    }
}
