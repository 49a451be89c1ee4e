// A slot of the matrix, the walks over its slots, and the matrix with a part replaced. The definitions that contracts
// cite are in specs/.
#![tactic(auto)]

ghost use Rattle.std.specs.Prelude.{◌≡◌, map, ◌≤◌};
ghost use Rattle.slots.specs.Matrix.{slot_of, with_slots, with_velocity, with_key};
ghost use Rattle.slots.specs.Slots.{empty_slot, is_empty_slot, route_slot, kept_amount};
ghost use Rattle.slots.specs.Slots.{kept_output, with_amount, with_output, with_bypass, with_polarity, with_aux};
ghost use Rattle.slots.specs.Slots.{with_source_curve, with_aux_curve, numbers_finite, all_finite, first_empty};
ghost use Rattle.slots.specs.Slots.{aims_at};
ghost use Rattle.slots.specs.Slots.{cleared, one_if, count_aims};

use config::SLOTS;
use curve_table::Curve;
use state::{Matrix, NoteCurve, Polarity, Slot, Target};

// the slot that nothing is assigned to
pub fn empty_slot() -> Slot
    ensures { result ≡ empty_slot }
{
    Slot {
        source: None,
        source_curve: Curve::Linear,
        amount: 0.0,
        polarity: Polarity::Unipolar,
        destination: None,
        aux: None,
        aux_invert: false,
        aux_curve: Curve::Linear,
        output: 1.0,
        bypass: false,
    }
}

// whether nothing is assigned to the slot
#[tactic(auto, using(crate::proofs::Laws::empty_is))]
pub fn is_empty(slot: Slot) -> bool
    ensures { result ≡ is_empty_slot slot }
{
    slot.source.is_none() && slot.destination.is_none()
}

// the empty slot with a source, a destination, an amount and a polarity
pub fn route_slot(source: usize, target: Target, amount: f32, polarity: Polarity) -> Slot
    ensures { result ≡ route_slot source target amount polarity }
{
    Slot {
        source: Some(source),
        source_curve: Curve::Linear,
        amount,
        polarity,
        destination: Some(target),
        aux: None,
        aux_invert: false,
        aux_curve: Curve::Linear,
        output: 1.0,
        bypass: false,
    }
}

// an amount as a setter keeps it
pub fn kept_amount(amount: f32) -> f32
    ensures { result ≡ kept_amount amount }
{
    number::clamp(-1.0, 1.0, amount)
}

// an output as a setter keeps it
pub fn kept_output(output: f32) -> f32
    ensures { result ≡ kept_output output }
{
    number::clamp(0.0, 1.0, output)
}

// ---- a slot with one field replaced

#[tactic(auto, unfolding(crate::specs::Slots::with_amount))]
pub fn with_amount(slot: Slot, amount: f32) -> Slot
    ensures { result ≡ with_amount amount slot }
{
    Slot { amount, ..slot }
}

#[tactic(auto, unfolding(crate::specs::Slots::with_output))]
pub fn with_output(slot: Slot, output: f32) -> Slot
    ensures { result ≡ with_output output slot }
{
    Slot { output, ..slot }
}

#[tactic(auto, unfolding(crate::specs::Slots::with_bypass))]
pub fn with_bypass(slot: Slot, bypass: bool) -> Slot
    ensures { result ≡ with_bypass bypass slot }
{
    Slot { bypass, ..slot }
}

#[tactic(auto, unfolding(crate::specs::Slots::with_polarity))]
pub fn with_polarity(slot: Slot, polarity: Polarity) -> Slot
    ensures { result ≡ with_polarity polarity slot }
{
    Slot { polarity, ..slot }
}

#[tactic(auto, unfolding(crate::specs::Slots::with_aux))]
pub fn with_aux(slot: Slot, aux: Option<usize>, invert: bool) -> Slot
    ensures { result ≡ with_aux aux invert slot }
{
    Slot {
        aux,
        aux_invert: invert,
        ..slot
    }
}

#[tactic(auto, unfolding(crate::specs::Slots::with_source_curve))]
pub fn with_source_curve(slot: Slot, source_curve: Curve) -> Slot
    ensures { result ≡ with_source_curve source_curve slot }
{
    Slot {
        source_curve,
        ..slot
    }
}

#[tactic(auto, unfolding(crate::specs::Slots::with_aux_curve))]
pub fn with_aux_curve(slot: Slot, aux_curve: Curve) -> Slot
    ensures { result ≡ with_aux_curve aux_curve slot }
{
    Slot { aux_curve, ..slot }
}

// ---- the numbers of slots

// whether the numbers of the slot are finite
#[tactic(auto, unfolding(crate::specs::Slots::numbers_finite))]
pub fn numbers_finite(slot: Slot) -> bool
    ensures { result ≡ numbers_finite slot }
{
    number::is_finite(slot.amount)
        && number::is_finite(slot.output)
        && curve_table::seconds_finite(slot.source_curve)
        && curve_table::seconds_finite(slot.aux_curve)
}

// whether the numbers of every slot are finite
pub fn all_finite(slot: [Slot; SLOTS]) -> bool
    ensures { result ≡ all_finite slot }
{
    slot.iter().all(|s| numbers_finite(*s))
}

// ---- the first empty slot

// the number of the first empty slot, or the number of slots
pub fn first_empty(slot: [Slot; SLOTS]) -> usize
    ensures { result ≡ first_empty slot }
{
    slot.iter().position(|s| is_empty(*s)).unwrap_or(SLOTS)
}

// ---- the slots of a destination

// whether the destination is the target
pub fn aims_at(target: Target, destination: Option<Target>) -> bool
    ensures { result ≡ aims_at target destination }
{
    destination == Some(target)
}

// the slot, or the empty slot where it modulates the target
fn clear(target: Target, slot: Slot) -> Slot
    ensures { result ≡ cleared target slot }
{
    if aims_at(target, slot.destination) {
        return empty_slot();
    }
    slot
}

// every slot that modulates the target becomes empty
pub fn clear_all(target: Target, slot: [Slot; SLOTS]) -> [Slot; SLOTS]
    ensures { result ≡ map (cleared target) slot }
{
    let mut next = slot;
    for s in next.iter_mut() {
        *s = clear(target, *s);
    }
    next
}

// how many slots modulate the target
pub fn count_aims(target: Target, slot: [Slot; SLOTS]) -> usize
    ensures { result ≡ count_aims target slot }
{
    slot.iter()
        .filter(|s| aims_at(target, s.destination))
        .count()
}

// ---- the matrix

// slot n; past the last, the empty slot
pub fn slot_of(matrix: Matrix, n: usize) -> Slot
    ensures { result ≡ slot_of matrix n }
{
    if n < SLOTS {
        return matrix.slot[n];
    }
    empty_slot()
}

#[tactic(auto, unfolding(crate::specs::Matrix::with_slots))]
pub fn with_slots(matrix: Matrix, slot: [Slot; SLOTS]) -> Matrix
    ensures { result ≡ with_slots matrix slot }
{
    Matrix { slot, ..matrix }
}

#[tactic(auto, unfolding(crate::specs::Matrix::with_velocity))]
pub fn with_velocity(matrix: Matrix, velocity: NoteCurve) -> Matrix
    ensures { result ≡ with_velocity matrix velocity }
{
    Matrix { velocity, ..matrix }
}

#[tactic(auto, unfolding(crate::specs::Matrix::with_key))]
pub fn with_key(matrix: Matrix, key: NoteCurve) -> Matrix
    ensures { result ≡ with_key matrix key }
{
    Matrix { key, ..matrix }
}
