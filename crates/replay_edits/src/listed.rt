// Slots as the list has them, and whether two matrices are the same.
use config::SLOTS;
use curve_table::Curve;
use state::{Matrix, Polarity, Slot, Target};

// how many words a line has, and of how many bytes it is with its end
pub const WORDS: usize = 24;

pub const WIDTH: usize = 216;

// ---- words

// word k of a line: eight hexadecimal digits
pub fn word(line: &[u8], k: usize) -> u32 {
    if WORDS <= k {
        return 0;
    }
    (hex_words::hex(line, k * 9, 8) % 0x1_0000_0000) as u32
}

// the binary32 whose bits are word k
pub fn float(line: &[u8], k: usize) -> f32 {
    hex_words::of_bits(word(line, k))
}

// the target whose kind is word k, and whose number the next
pub fn target(line: &[u8], k: usize) -> Target {
    let kind = word(line, k);
    if WORDS <= k {
        return Target::Param(0);
    }
    let n = word(line, k + 1);
    if kind == 2 {
        return Target::LfoBus {
            lfo: (n / 256 % 256) as u8,
            bus: (n % 256) as u8,
        };
    }
    Target::Param(n)
}

fn aim(line: &[u8], k: usize) -> Option<Target> {
    if word(line, k) == 0 {
        return None;
    }
    let to = target(line, k);
    Some(to)
}

fn pick(line: &[u8], k: usize) -> Option<usize> {
    let n = word(line, k);
    if n == 0xFFFF_FFFF {
        return None;
    }
    Some(n as usize)
}

// the polarity by the lowest flag
pub fn polarity_of(flags: u32) -> Polarity {
    if flags % 2 == 1 {
        return Polarity::Bipolar;
    }
    Polarity::Unipolar
}

fn curve(on: bool, rise: f32, fall: f32) -> Curve {
    if on {
        return Curve::Table { rise, fall };
    }
    Curve::Linear
}

// the slot that a line's last words are
pub fn slot(line: &[u8]) -> Slot {
    let flags = word(line, 19);
    let source = pick(line, 13);
    let source_curve = curve(flags / 8 % 2 == 1, float(line, 20), float(line, 21));
    let polarity = polarity_of(flags);
    let destination = aim(line, 15);
    let aux = pick(line, 14);
    let aux_curve = curve(flags / 16 % 2 == 1, float(line, 22), float(line, 23));
    Slot {
        source,
        source_curve,
        amount: float(line, 17),
        polarity,
        destination,
        aux,
        aux_invert: flags / 2 % 2 == 1,
        aux_curve,
        output: float(line, 18),
        bypass: flags / 4 % 2 == 1,
    }
}

// ---- whether two are the same

fn same_curve(a: Curve, b: Curve) -> bool {
    match (a, b) {
        (Curve::Linear, Curve::Linear) => true,
        (Curve::Table { rise, fall }, Curve::Table { rise: x, fall: y }) => {
            number::are_same(rise, x) && number::are_same(fall, y)
        }
        _ => false,
    }
}

fn same_slot(a: Slot, b: Slot) -> bool {
    a.source == b.source
        && a.aux == b.aux
        && a.destination == b.destination
        && a.polarity == b.polarity
        && a.aux_invert == b.aux_invert
        && a.bypass == b.bypass
        && number::are_same(a.amount, b.amount)
        && number::are_same(a.output, b.output)
        && same_curve(a.source_curve, b.source_curve)
        && same_curve(a.aux_curve, b.aux_curve)
}

fn same_slots(a: [Slot; SLOTS], b: [Slot; SLOTS]) -> bool {
    for i in 0..SLOTS {
        if !same_slot(a[i], b[i]) {
            return false;
        }
    }
    true
}

// whether all slots of two matrices are the same, and how their notes glide
pub fn same_matrix(a: Matrix, b: Matrix) -> bool {
    same_slots(a.slot, b.slot) && a.glide == b.glide && a.velocity_legato == b.velocity_legato
}
