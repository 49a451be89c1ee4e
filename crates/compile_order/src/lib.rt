// The order of plans (document 01, Plan and route; program.rs 350-372). The definitions are in model's specs/Feeds and,
// over lists, in specs/Marks.
#![tactic(auto)]

ghost use Rattle.std.specs.Prelude.{◌≡◌, ◌≤◌, false, ◌&&◌, map, eqb, get_or, take, replicate, length};
ghost use Rattle.config.specs.Sizes.{slots};
ghost use Rattle.list.specs.Fill.{fill};
ghost use Rattle.list.specs.Padded.{padded};
ghost use Rattle.feed.specs.Marks.{pairs};
ghost use Rattle.model.specs.Feeds.{is_it, is_among, any_reads};
ghost use Rattle.compile_order.specs.Marks.{rated_as, feeds_other, mark_at, order_in};

use config::SLOTS;
use feed::{Order, PAIRS};
use state::{FedBy, Reader, Used};
use state_filled::List;

// How many plans are control plans, and the destinations of all plans in their order: the first `count` of `order`.
// No `List`, since that is not Copy.
#[derive(Clone, Copy)]
pub struct PlanOrder {
    pub control: usize,
    pub count: usize,
    pub order: [u16; SLOTS],
}

// ---- control and audio

// the numbers of those in use that are audio, or of those that are not
fn rated(used: &[Used], audio: bool) -> List<u16>
    requires { length used.now ≤ slots }
    ensures { result.items ≡ rated_as audio used.now }
{
    let mut out = List::new();
    for u in used {
        if u.audio == audio {
            state_filled::add(&mut out, u.dest);
        }
    }
    out
}

// ---- what is read by what

fn is_it(a: u16, feeder: Option<FedBy>) -> bool
    ensures { result ≡ is_it a feeder }
{
    match feeder {
        None => false,
        Some(f) => a == f.dest,
    }
}

fn is_among(a: u16, reader: Reader) -> bool
    ensures { result ≡ is_among a reader }
{
    is_it(a, reader.source)
        || is_it(a, reader.aux)
        || is_it(a, reader.amount)
        || is_it(a, reader.output)
}

// whether the reader is b's and reads a
fn reads(a: u16, b: u16, reader: Reader) -> bool
    ensures { result ≡ eqb reader.candidate.dest b && is_among a reader }
{
    reader.candidate.dest == b && is_among(a, reader)
}

// whether a route of b reads a
fn is_read(readers: &[Reader], a: u16, b: u16) -> bool
    ensures { result ≡ any_reads a b readers.now }
{
    for r in readers {
        if reads(a, b, *r) {
            return true;
        }
    }
    false
}

// whether a route of b reads a, another destination
fn feeds_other(readers: &[Reader], a: u16, b: u16) -> bool
    ensures { result ≡ feeds_other readers.now a b }
{
    a != b && is_read(readers, a, b)
}

// the mark of pair p of places
#[tactic(auto, unfolding(crate::specs::Marks::mark_at))]
fn mark(readers: &[Reader], control: &[u16], p: usize) -> bool
    ensures { result ≡ mark_at readers.now control.now p }
{
    let a = p / SLOTS;
    let b = p % SLOTS;
    a < control.len() && b < control.len() && feeds_other(readers, control[a], control[b])
}

// a mark for each pair of places
fn marks(readers: &[Reader], control: &[u16]) -> [bool; PAIRS]
    ensures { result ≡ fill (replicate pairs false) (mark_at readers.now control.now) pairs }
{
    let mut out = [false; PAIRS];
    for p in 0..PAIRS {
        out[p] = mark(readers, control, p);
    }
    out
}

// ---- the order

// the numbers at the places of an order; 0 at a place past the last
fn at_places(list: &[u16], order: &Order) -> List<u16>
    ensures { result.items ≡ map (λ i. get_or list.now i 0) (take order.now.count order.now.place) }
{
    let mut out = List::new();
    for k in 0..order.count.min(SLOTS) {
        let d = list.get(order.place[k]).copied().unwrap_or(0);
        state_filled::add(&mut out, d);
    }
    out
}

// the order of the plans
pub fn plan_order(used: &List<Used>, readers: &[Reader]) -> PlanOrder
    ensures control { result.control ≡ length (rated_as false used.now.items) }
    ensures order { take result.count result.order ≡ order_in used.now.items readers.now }
    ensures count { result.count ≡ length (order_in used.now.items readers.now) }
    ensures places { result.order ≡ padded slots 0 (order_in used.now.items readers.now) }
{
    let control = rated(used, false);
    let feeds = marks(readers, &control);
    let order = feed::plan_order(&feeds, control.len());
    let mut out = at_places(&control, &order);
    out.try_extend_from_slice(&rated(used, true)).unwrap();
    PlanOrder {
        control: control.len(),
        count: out.len(),
        order: state_filled::padded(&out, 0),
    }
}

// its destinations as a list
pub fn numbers(order: &PlanOrder) -> List<u16>
    ensures { result.items ≡ take order.now.count order.now.order }
{
    let mut out = List::new();
    for k in 0..order.count.min(SLOTS) {
        state_filled::add(&mut out, order.order[k]);
    }
    out
}
