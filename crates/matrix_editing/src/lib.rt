// What dragging onto a control makes of it, and the LFOs that no slot uses. The definitions that contracts cite are in
// specs/.
#![tactic(auto)]

ghost use Rattle.std.specs.Prelude.{◌≡◌};
ghost use Rattle.matrix_editing.specs.Drag.{both_finite, centred, two_way, polarity_at, one_way_room, room_at};
ghost use Rattle.matrix_editing.specs.Drag.{depth_at};
ghost use Rattle.matrix_editing.specs.Drag.{dragged_amount};
ghost use Rattle.matrix_editing.specs.Free.{picks_source, in_use, free_source};

use config::SLOTS;
use state::{Polarity, Slot};

// whether both numbers are finite
#[tactic(auto, unfolding(crate::specs::Drag::both_finite))]
pub fn both_finite(a: f32, b: f32) -> bool
    ensures { result ≡ both_finite a b }
{
    number::is_finite(a) && number::is_finite(b)
}

// ---- polarity

// whether the position is within 0.005 of the middle
fn is_centred(position: f32) -> bool
    ensures { result ≡ centred position }
{
    number::abs(position - 0.5) <= 0.005
}

fn two_way(both: bool) -> Polarity
    ensures { result ≡ two_way both }
{
    if both {
        return Polarity::Bipolar;
    }
    Polarity::Unipolar
}

// the polarity of a route dragged onto a control at that position
#[tactic(auto, unfolding(crate::specs::Drag::polarity_at))]
pub fn polarity_at(position: f32, toggle: bool) -> Polarity
    ensures { result ≡ polarity_at position toggle }
{
    two_way(is_centred(position) != toggle)
}

// ---- depth

// the travel left above the position, or below it for a negative amount
fn one_way_room(position: f32, amount: f32) -> f32
    ensures { result ≡ one_way_room position amount }
{
    if 0.0 <= amount {
        return 1.0 - position;
    }
    position
}

// the travel left in the direction of the route
fn room_at(position: f32, polarity: Polarity, amount: f32) -> f32
    ensures { result ≡ room_at position polarity amount }
{
    match polarity {
        Polarity::Unipolar => one_way_room(position, amount),
        Polarity::Bipolar => number::min(position, 1.0 - position),
    }
}

// the amount, held to the travel that the position leaves
pub fn depth_at(position: f32, polarity: Polarity, amount: f32) -> f32
    ensures { result ≡ depth_at position polarity amount }
{
    let inside = number::clamp(0.0, 1.0, position);
    let room = room_at(inside, polarity, amount);
    number::clamp(-room, room, amount)
}

// the amount that a drag makes
pub fn dragged_amount(position: f32, polarity: Polarity, amount: f32, limit: bool) -> f32
    ensures { result ≡ dragged_amount position polarity amount limit }
{
    if limit {
        return depth_at(position, polarity, amount);
    }
    amount
}

// ---- free LFOs

fn picks_source(source: usize, pick: Option<usize>) -> bool
    ensures { result ≡ picks_source source pick }
{
    pick == Some(source)
}

// whether a slot has the source
fn in_use(source: usize, slot: [Slot; SLOTS]) -> bool
    ensures { result ≡ in_use source slot }
{
    for s in slot {
        let pick = s.source;
        if picks_source(source, pick) {
            return true;
        }
    }
    false
}

// the first of the LFOs that no slot has as its source
pub fn first_free(lfos: &[usize], slot: [Slot; SLOTS]) -> Option<usize>
    ensures { result ≡ free_source lfos.now slot }
{
    for lfo in lfos {
        if !in_use(*lfo, slot) {
            return Some(*lfo);
        }
    }
    None
}
