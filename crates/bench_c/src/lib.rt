// The archive that the benchmark links: the scenario of crate bench, exported for C.
#![tactic(auto)]

// What bench::tinuhawe_bench answers.
#[unsafe(no_mangle)]
pub extern "C" fn tinuhawe_bench(
    numbers: &[usize],
    held: &mut [f32],
    globals: &mut [f32],
    bases: &mut [f32],
    values: &mut [f32],
    audio: &mut [f32],
    tables: &mut [f32],
    curves: &[f32],
    samples: &[f32],
    hash: &mut [u64],
) -> u64 {
    bench::tinuhawe_bench(
        numbers, held, globals, bases, values, audio, tables, curves, samples, hash,
    )
}
