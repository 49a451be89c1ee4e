// The sheet of a block: of each plan, each of whose routes is swept, what its rows are swept by, found once a block and
// lent from then on as numbers, a row a plan (engine.rs 951-1006). The definitions are in specs/Sheet.
#![tactic(auto)]

ghost use Rattle.std.specs.Prelude.{◌≡◌, true, ℕ, ◌+◌, ◌*◌, ◌≤◌, ◌<◌, length};
ghost use Rattle.config.specs.Sizes.{slots};
ghost use Rattle.plan_sheet.specs.Sheet.{numbers_size, words_size, put_numbers, put_words, base_at, pass_at, Sheet};

use config::SLOTS;
use plan_sweep::{Field, Pass};
use state::{Gains, Plan};

// The numbers of all rows: of each plan what its routes are added to, its base, its lower and its upper bound.
pub const NUMBERS: usize = 256;

// The words of all rows: of each plan its first route, and how many routes it has.
pub const WORDS: usize = 128;

// the row of plan d
fn put_plan(numbers: &mut [f32], words: &mut [usize], d: usize, plan: Plan, base: f32, begun: f32)
    requires { (d < slots) × (length numbers.old ≡ numbers_size) × (length words.old ≡ words_size) }
    ensures { (numbers.new ≡ put_numbers d begun base plan.min plan.max numbers.old)
        × (words.new ≡ put_words d plan.first plan.count words.old) }
{
    let k = 4 * d;
    numbers[k] = begun;
    numbers[k + 1] = base;
    numbers[k + 2] = plan.min;
    numbers[k + 3] = plan.max;
    let j = 2 * d;
    words[j] = plan.first;
    words[j + 1] = plan.count;
}

// The rows of the first n plans, where each of them is swept; whether that is so.
pub fn sheet(
    numbers: &mut [f32],
    words: &mut [usize],
    plans: [Plan; SLOTS],
    n: usize,
    field: Field,
    levels: Gains,
    globals: &[f32],
    bases: &[f32],
    steps: &[usize],
    offsets: &[f32],
) -> bool
    requires { (n ≤ slots) × (length numbers.old ≡ numbers_size) × (length words.old ≡ words_size)
        × (length steps.now ≡ slots) × (length offsets.now ≡ slots) }
    ensures { result ≡ true → Sheet field steps.now offsets.now levels globals.now
        bases.now plans n numbers.new words.new }
{
    for d in 0..n {
        let plan = plans[d];
        if !plan_sweep::is_swept(field, plan, steps) {
            return false;
        }
        let kind = plan.base;
        let base = plan_sum::base_by(kind, plan.dest, levels, globals, bases);
        let offset = plan_sweep::offset_sum(offsets, plan.first, plan.count);
        put_plan(numbers, words, d, plan, base, base + offset);
    }
    true
}

// The base of plan d.
pub fn base_at(numbers: &[f32], d: usize) -> f32
    requires { (d < slots) × (length numbers.now ≡ numbers_size) }
    ensures { result ≡ base_at numbers.now d }
{
    numbers[4 * d + 1]
}

// What the rows of plan d are swept by, held where `bound`.
pub fn pass_at(numbers: &[f32], words: &[usize], d: usize, field: Field, bound: bool) -> Pass
    requires { (d < slots) × (length numbers.now ≡ numbers_size) × (length words.now ≡ words_size) }
    ensures { result ≡ pass_at field bound numbers.now words.now d }
{
    let k = 4 * d;
    let j = 2 * d;
    Pass {
        begun: numbers[k],
        bound,
        min: numbers[k + 2],
        max: numbers[k + 3],
        first: words[j],
        count: words[j + 1],
        from: field.from,
        groups: field.groups,
        width: field.stride,
    }
}
