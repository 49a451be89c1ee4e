// The chunks of a block. The definitions are in model's specs/Chunks; a block is any two numbers, so that no sum here goes past its end.
#![tactic(auto)]

ghost use Rattle.std.specs.Prelude.{◌≡◌, ◌&&◌, ◌||◌, ◌+◌, ◌-◌, ◌*◌, ◌/◌, ◌≤◌, ◌<◌, min, eqb};
ghost use Rattle.config.specs.Sizes.{period};
ghost use Rattle.model.specs.Chunks.{chunk_total, chunk_start, chunk_phase, chunk_of};

use config::PERIOD;
use state::{Block, Chunk};

// periods that frames from a phase on reach into
fn periods(phase: usize, frames: usize) -> usize
    requires { phase < period }
    ensures { result ≡ (phase + frames + (period - 1)) / period }
{
    frames / PERIOD + (phase + frames % PERIOD + (PERIOD - 1)) / PERIOD
}

// how many chunks a block has
pub fn total(block: Block) -> usize
    ensures { result ≡ chunk_total block }
{
    let start = block.start;
    let end = block.end;
    if end <= start {
        return 0;
    }
    periods(block.phase % PERIOD, end - start)
}

// where chunk i starts
fn start_of(block: Block, i: usize) -> usize
    requires { i < chunk_total block }
    ensures { (result ≡ chunk_start block i) × (result ≤ block.end) }
{
    let start = block.start;
    if i == 0 {
        return start;
    }
    start + (PERIOD - block.phase % PERIOD) + (i - 1) * PERIOD
}

// its phase
fn phase_of(block: Block, i: usize) -> usize
    ensures { (result ≡ chunk_phase block i) × (result < period) }
{
    if i == 0 {
        return block.phase % PERIOD;
    }
    0
}

// the lesser
fn lesser(a: usize, b: usize) -> usize
    ensures { result ≡ min a b }
{
    if a < b {
        return a;
    }
    b
}

// whether chunk i ticks
fn ticks(phase: usize, i: usize, first: bool) -> bool
    ensures { result ≡ eqb phase 0 || (eqb i 0 && first) }
{
    if phase == 0 {
        return true;
    }
    if i == 0 {
        return first;
    }
    false
}

// chunk i
pub fn of(block: Block, i: usize) -> Chunk
    requires { i < chunk_total block }
    ensures { result ≡ chunk_of block i }
{
    let start = start_of(block, i);
    let phase = phase_of(block, i);
    let end = block.end;
    Chunk {
        start,
        len: lesser(PERIOD - phase, end - start),
        phase,
        tick: ticks(phase, i, block.first_tick),
    }
}
