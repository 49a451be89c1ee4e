// Scenarios for another program to time.
#![tactic(auto)]

mod hash;
mod scene;
mod work;

// Makes an engine by a scenario's numbers on lent memories, makes the scenario's calls, then its blocks, and answers
// the first refusal, or 0. Where `hash` has a place, the hash of the outputs is left there. `numbers` are those of
// scene::Scene in order; a number that is missing is 0, and one that is too large is its limit. `curves` are the tables
// of the matrix, for a rich scenario.
pub fn tinuhawe_bench(
    numbers: &[usize],
    held: &mut [f32],
    globals: &mut [f32],
    bases: &mut [f32],
    values: &mut [f32],
    audio: &mut [f32],
    tables: &mut [f32],
    curves: &[f32],
    samples: &[f32],
    hash: &mut [u64],
) -> u64 {
    let s = scene::of_numbers(numbers);
    let r = work::ready(
        s, held, globals, bases, values, audio, tables, curves, samples,
    );
    work::played(
        r, s, held, globals, bases, values, audio, tables, samples, hash,
    )
}
