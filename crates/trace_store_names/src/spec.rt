// What a table's line stands for (oracle/README.md, Session format): its numbers, written from a place of the memory on.
ghost use Rattle.std.specs.Prelude.{◌≡◌, ◌<◌, length, IfOk};

// Why a table was not made.
#[derive(Clone, Copy)]
pub enum Unmade {
    // an entry is not there
    NoEntry,
    // there is no room
    NoRoom,
}

// the n numbers from `at` on
fn room(numbers: &mut [f32], at: usize, n: usize) -> Result<&mut [f32], Unmade>
    ensures { IfOk result (λ r. length r.now ≡ n) }
{
    if numbers.len() < n || numbers.len() - n < at {
        return Err(Unmade::NoRoom);
    }
    Ok(&mut numbers[at..at + n])
}

// ---- formulas

// A table whose entry follows from its index alone.
#[derive(Clone, Copy)]
enum Shape {
    Linear,
    Reversed,
    Squared,
    Step { at: usize, below: f32, from: f32 },
}

// i / 512
fn over_512(i: usize) -> f32 {
    number::nearest_u64_to_f32(i as u64) / 512.0
}

fn reversed(i: usize) -> f32 {
    over_512(512usize.saturating_sub(i))
}

fn squared(i: usize) -> f32 {
    let x = over_512(i);
    x * x
}

fn point(shape: Shape, i: usize) -> f32 {
    match shape {
        Shape::Linear => over_512(i),
        Shape::Reversed => reversed(i),
        Shape::Squared => squared(i),
        Shape::Step { at, below, from } => { if i < at { below } else { from } }
    }
}

fn shaped(numbers: &mut [f32], at: usize, shape: Shape) -> Result<usize, Unmade> {
    for (i, x) in room(numbers, at, 513)?.iter_mut().enumerate() {
        *x = point(shape, i);
    }
    Ok(513)
}

// ---- the generator

fn step(s: u64) -> u64 {
    s.wrapping_mul(6364136223846793005)
        .wrapping_add(1442695040888963407)
}

fn special(k: u64) -> f32 {
    match k {
        0 => 1.0 / 0.0,
        1 => -1.0 / 0.0,
        2 => 0.0 / 0.0,
        3 => -0.0,
        4 => hex_words::of_bits(1),
        5 => hex_words::of_bits(0x7f7f_ffff),
        6 => hex_words::of_bits(0xff7f_ffff),
        _ => 1.0,
    }
}

fn unipolar(s: u64) -> f32 {
    number::nearest_u64_to_f32(s >> 40) / 16777216.0
}

fn centred(s: u64, over: f32) -> f32 {
    (number::nearest_u64_to_f32(s >> 40) - 8388608.0) / over
}

fn is_special(s: u64) -> bool {
    (s >> 32) % 32 == 0
}

// a number's bits drawn whole
fn raw(s: u64) -> f32 {
    hex_words::of_bits((s >> 32) as u32)
}

// a special number in one of 32 draws, else x
fn mixed(s: u64, x: f32) -> f32 {
    if is_special(s) {
        special((s >> 37) % 8)
    } else {
        x
    }
}

// by the letter of the kind
fn drawn(kind: u8, s: u64) -> f32 {
    match kind {
        b'u' => unipolar(s),
        b'b' => centred(s, 8388608.0),
        b't' => centred(s, 524288.0),
        b'x' => mixed(s, unipolar(s)),
        b'y' => mixed(s, centred(s, 8388608.0)),
        _ => raw(s),
    }
}

// the letter of a kind
fn kind_of(w: &[u8]) -> u8 {
    w.first().copied().unwrap_or(0)
}

// n numbers drawn
fn generated(
    numbers: &mut [f32],
    at: usize,
    n: usize,
    seed: u64,
    kind: u8,
) -> Result<usize, Unmade> {
    let mut s = seed;
    for x in room(numbers, at, n)?.iter_mut() {
        s = step(s);
        *x = drawn(kind, s);
    }
    Ok(n)
}

// ---- numbers one by one

// the number that is the word at byte p
fn float_at(line: &[u8], p: usize) -> f32 {
    trace_input_session::float(trace_input_session::word_at(line, p)).unwrap_or(0.0)
}

// the whole number that is the word at byte p
fn whole_at(line: &[u8], p: usize) -> u64 {
    trace_input_session::whole(trace_input_session::word_at(line, p)).unwrap_or(0)
}

// `n` words from byte `from` of the line on, each a number
fn written(
    line: &[u8],
    from: usize,
    n: usize,
    numbers: &mut [f32],
    at: usize,
) -> Result<usize, Unmade> {
    let mut p = from;
    for x in room(numbers, at, n)?.iter_mut() {
        *x = float_at(line, p);
        p = trace_input_session::next(line, p);
    }
    Ok(n)
}

// ---- a line: each of these reads words from byte p on

fn constant(line: &[u8], p: usize, numbers: &mut [f32], at: usize) -> Result<usize, Unmade> {
    let value = float_at(line, p);
    let shape = Shape::Step {
        at: 0,
        below: value,
        from: value,
    };
    shaped(numbers, at, shape)
}

fn stepped(line: &[u8], p: usize, numbers: &mut [f32], at: usize) -> Result<usize, Unmade> {
    let q = trace_input_session::next(line, p);
    let shape = Shape::Step {
        at: whole_at(line, p) as usize,
        below: float_at(line, q),
        from: float_at(line, trace_input_session::next(line, q)),
    };
    shaped(numbers, at, shape)
}

// `SEED KIND` or `SEED LEN KIND`: two words or three
fn drawn_by(
    line: &[u8],
    p: usize,
    words: usize,
    numbers: &mut [f32],
    at: usize,
) -> Result<usize, Unmade> {
    let seed = whole_at(line, p);
    let q = trace_input_session::next(line, p);
    if words == 2 {
        return generated(
            numbers,
            at,
            513,
            seed,
            kind_of(trace_input_session::word_at(line, q)),
        );
    }
    let kind = kind_of(trace_input_session::word_at(line, trace_input_session::next(line, q)));
    generated(numbers, at, whole_at(line, q) as usize, seed, kind)
}

// the table whose words begin at byte p, of which there are `more` after the first
fn base(
    line: &[u8],
    p: usize,
    more: usize,
    numbers: &mut [f32],
    at: usize,
) -> Result<usize, Unmade> {
    let i = trace_input_session::index(
        b"lin rev sq const step gen",
        trace_input_session::word_at(line, p),
    );
    let q = trace_input_session::next(line, p);
    match i {
        0 => shaped(numbers, at, Shape::Linear),
        1 => shaped(numbers, at, Shape::Reversed),
        2 => shaped(numbers, at, Shape::Squared),
        3 => constant(line, q, numbers, at),
        4 => stepped(line, q, numbers, at),
        5 => drawn_by(line, q, more, numbers, at),
        _ => written(line, q, more, numbers, at),
    }
}

// where the words after the n from byte p on begin
fn past_words(line: &[u8], from: usize, n: usize) -> usize {
    let mut p = from;
    for _ in 0..n {
        p = trace_input_session::next(line, p);
    }
    p
}

// where the words after a change at byte p begin: `len N`, `put I X`; p where there is none
fn past_change(line: &[u8], p: usize) -> usize {
    let i = trace_input_session::index(b"len put", trace_input_session::word_at(line, p));
    match i {
        0 => past_words(line, p, 2),
        1 => past_words(line, p, 3),
        _ => p,
    }
}

// where the first word from byte p on begins that begins no change
fn base_at(line: &[u8], from: usize) -> usize {
    let mut p = from;
    for _ in 0..line.len() {
        let q = past_change(line, p);
        if q <= p {
            return p;
        }
        p = q;
    }
    p
}

// where the change begins that ends before the word at byte p
fn change_before(line: &[u8], p: usize) -> usize
    ensures { 0 < p → result < p }
{
    let q = trace_input_session::back(line, trace_input_session::back(line, p));
    if trace_input_session::is(trace_input_session::word_at(line, q), b"len") {
        return q;
    }
    trace_input_session::back(line, q)
}

// cut to n, or the last number repeated up to n
fn resized(numbers: &mut [f32], at: usize, len: usize, n: usize) -> Result<usize, Unmade> {
    if len == 0 {
        return Err(Unmade::NoEntry);
    }
    let table = room(numbers, at, n)?;
    if len < n {
        let last = table[len - 1];
        table[len..].fill(last);
    }
    Ok(n)
}

// the change at byte p
fn changed(
    line: &[u8],
    p: usize,
    numbers: &mut [f32],
    at: usize,
    len: usize,
) -> Result<usize, Unmade> {
    let q = trace_input_session::next(line, p);
    let i = whole_at(line, q) as usize;
    if trace_input_session::is(trace_input_session::word_at(line, p), b"len") {
        return resized(numbers, at, len, i);
    }
    replaced(
        numbers,
        at,
        len,
        i,
        float_at(line, trace_input_session::next(line, q)),
    )
}

fn replaced(numbers: &mut [f32], at: usize, len: usize, i: usize, x: f32) -> Result<usize, Unmade> {
    if len <= i {
        return Err(Unmade::NoEntry);
    }
    if numbers.len() <= i || numbers.len() - i <= at {
        return Err(Unmade::NoRoom);
    }
    numbers[at + i] = x;
    Ok(len)
}

// how many words of a line begin after byte p, the one there left out
fn words_after(line: &[u8], p: usize) -> usize {
    trace_input_session::count(trace_input_session::part(line, p, line.len())).saturating_sub(1)
}

// the table of a line from its word 2 on, its numbers from `at` on, and how many there are: its last words are the table,
// the changes before them are applied from the last to the first
pub fn make(line: &[u8], numbers: &mut [f32], at: usize) -> Result<usize, Unmade> {
    let from = trace_input_session::place(line, 2);
    let mut end = base_at(line, from);
    let mut len = base(line, end, words_after(line, end), numbers, at)?;
    // Not a for: the step is a word, from the last back.
    while from < end {
        end = change_before(line, end);
        len = changed(line, end, numbers, at, len)?;
    }
    Ok(len)
}
