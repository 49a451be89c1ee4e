// What a session keeps in whole numbers, in one memory, the book: where the parts of the pools are, where named tables are, which lengths calls are lent, and
// marks. Entry i of the parts has its place and its length in two numbers (as in `trace_store_names`).
#![tactic(auto)]

ghost use Rattle.std.specs.Prelude.{◌≤◌, length};

// ---- entries of parts: those of programs by their number, and of sources by theirs

// The most programs by name; program 0 is called ~.
pub const PROGRAMS: usize = 9;

// The number of the engine's own program where it is installed: no room is ever given to it.
pub const BARE: usize = 9;

pub const VALUES_PARTS: usize = 0;

pub const AUDIO_PARTS: usize = 10;

pub const TABLES_PARTS: usize = 20;

// The entry of tables that are not yet a program's.
pub const NEW_TABLES: usize = 30;

pub const SAMPLES_PARTS: usize = 31;

// The first entry of a named table; there are at most 128.
pub const NAMED: usize = 159;

pub const TABLES_NAMED: usize = 128;

// ---- numbers after the entries; kinds are numbers here, since the book is one lent memory of whole numbers (no heap)

// The lengths that calls are lent: 0 all, 1 the need, 2 one less, else 3 more than a number.
pub const LENT: usize = 1324;

// The needs of the installed program and of its engine.
pub const NEED: usize = 1332;

// Which memory, among LENT and NEED.
pub const HELD: usize = 0;

pub const GLOBALS: usize = 1;

pub const BASES: usize = 2;

pub const VALUES: usize = 3;

pub const AUDIO: usize = 4;

pub const TABLES: usize = 5;

pub const MATRIX_TABLES: usize = 6;

pub const OUT: usize = 7;

// How many tables have names, and how many numbers they take.
pub const COUNT: usize = 1340;

pub const USED: usize = 1341;

// The installed program's number.
pub const INSTALLED: usize = 1342;

// 1 where the program ~ outside is an engine's own.
pub const OWN: usize = 1343;

// How many programs have names, ~ not counted.
pub const TITLES: usize = 1344;

// How many destinations are registered.
pub const DESTS: usize = 1345;

// How many routes the installed program has.
pub const ROUTES: usize = 1346;

// 1 where there is an engine.
pub const THERE: usize = 1347;

// How outputs print: 0 full, 1 hash, 2 cases, 3 not.
pub const PRINT: usize = 1348;

pub const CANON: usize = 1349;

// From here on, for each program by name, 1 where it is outside an engine.
pub const OUTSIDE: usize = 1350;

// From here on names, in cells of 64 numbers: a length, then so many bytes. The cells of tables come first, then those of programs, ~ left out.
pub const NAMES: usize = 1360;

// The first cell of a program.
pub const TITLE_CELLS: usize = 128;

// The length of the book.
pub const SIZE: usize = 10064;

// number k; 0 past the end
pub fn get(book: &[usize], k: usize) -> usize {
    book.get(k).copied().unwrap_or(0)
}

// number k is n
pub fn set(book: &mut [usize], k: usize, n: usize) {
    if k < book.len() {
        book[k] = n;
    }
}

// ---- sums that do not stop

pub fn sum(a: usize, b: usize) -> usize {
    a.wrapping_add(b)
}

pub fn less(a: usize, b: usize) -> usize {
    a.saturating_sub(b)
}

pub fn at_most(n: usize, most: usize) -> usize
    ensures { result ≤ most }
{
    n.min(most)
}

// ---- names

// where a name's cell begins
fn cell_at(cell: usize) -> usize {
    if 136 <= cell {
        return SIZE;
    }
    NAMES + cell * 64
}

// whether the numbers from `at` on are the bytes of a word
fn has_bytes(book: &[usize], at: usize, w: &[u8]) -> bool {
    w.iter()
        .enumerate()
        .all(|(i, &b)| get(book, sum(at, i)) == usize::from(b))
}

fn is_name(book: &[usize], cell: usize, w: &[u8]) -> bool {
    let at = cell_at(cell);
    get(book, at) == w.len() && has_bytes(book, sum(at, 1), w)
}

// the first of `count` cells from `first` on that has a name, counted from `first`; `count` where none has it
pub fn name_found(book: &[usize], first: usize, count: usize, w: &[u8]) -> usize {
    (0..count)
        .position(|i| is_name(book, sum(first, i), w))
        .unwrap_or(count)
}

fn put_bytes(book: &mut [usize], at: usize, w: &[u8]) {
    for (i, &b) in w.iter().enumerate() {
        set(book, sum(at, i), usize::from(b));
    }
}

// the name of a cell is w; false where there is no such cell, or it is too small
pub fn set_name(book: &mut [usize], cell: usize, w: &[u8]) -> bool {
    if 136 <= cell || 63 < w.len() {
        return false;
    }
    let at = cell_at(cell);
    set(book, at, w.len());
    put_bytes(book, sum(at, 1), w);
    true
}

fn byte_of(n: usize) -> u8 {
    (n % 256) as u8
}

// the bytes of a cell's name, into `to`; how many there are
pub fn name_copied(book: &[usize], cell: usize, to: &mut [u8]) -> usize {
    let at = cell_at(cell);
    let n = at_most(get(book, at), to.len());
    for (i, b) in to[..n].iter_mut().enumerate() {
        *b = byte_of(get(book, sum(sum(at, 1), i)));
    }
    n
}

// ---- what is lent

// how many of `need` numbers are lent, of `have` where all are
fn length_of(lent: usize, need: usize, have: usize) -> usize {
    match lent {
        0 => have,
        1 => need,
        2 => less(need, 1),
        _ => lent - 3,
    }
}

// how many numbers of memory k a call is lent that needs so many, of a memory of `have`
pub fn lent_by(book: &[usize], k: usize, need: usize, have: usize) -> usize
    ensures { result ≤ have }
{
    at_most(length_of(get(book, sum(LENT, k)), need, have), have)
}

// how many numbers of memory k a call on the engine is lent, of a memory of `have`
pub fn lent(book: &[usize], k: usize, have: usize) -> usize
    ensures { result ≤ have }
{
    lent_by(book, k, get(book, sum(NEED, k)), have)
}

// where what is lent of memory k ends, of which so many numbers are needed; it begins at `from`
pub fn reach(book: &[usize], k: usize, need: usize, from: usize, have: usize) -> usize
    requires { from ≤ have }
    ensures { (from ≤ result) × (result ≤ have) }
{
    from + lent_by(book, k, need, have - from)
}

// where part i begins, inside a memory of `have`
pub fn start(book: &[usize], i: usize, have: usize) -> usize
    ensures { result ≤ have }
{
    at_most(trace_store_names::place(book, i), have)
}

// where what is lent of part i, of memory k, ends; it begins at `from`
pub fn stop(book: &[usize], i: usize, k: usize, from: usize, have: usize) -> usize
    requires { from ≤ have }
    ensures { (from ≤ result) × (result ≤ have) }
{
    from + at_most(lent(book, k, trace_store_names::len(book, i)), have - from)
}

// where part i ends; it begins at `from`
pub fn whole_stop(book: &[usize], i: usize, from: usize, have: usize) -> usize
    requires { from ≤ have }
    ensures { (from ≤ result) × (result ≤ have) }
{
    from + at_most(trace_store_names::len(book, i), have - from)
}

// ---- parts of a pool: the entries from `first` to before `end`, one after the other from `base` on

fn end_of(book: &[usize], i: usize) -> usize {
    sum(
        trace_store_names::place(book, i),
        trace_store_names::len(book, i),
    )
}

// where the free rest begins
pub fn top(book: &[usize], first: usize, end: usize, base: usize) -> usize {
    let mut most = base;
    for i in first..end {
        most = most.max(end_of(book, i));
    }
    most
}

// whether entry i has numbers from `at` on
fn has_at(book: &[usize], i: usize, at: usize) -> bool {
    trace_store_names::len(book, i) != 0 && trace_store_names::place(book, i) == at
}

fn is_kept(book: &[usize], first: usize, end: usize, at: usize) -> bool {
    (first..end).any(|i| has_at(book, i, at))
}

fn lower(book: &mut [usize], i: usize, at: usize, n: usize) {
    let place = trace_store_names::place(book, i);
    if at < place {
        let len = trace_store_names::len(book, i);
        trace_store_names::set_place(book, i, less(place, n), len);
    }
}

// the parts above `at` are n numbers lower
fn lower_all(book: &mut [usize], first: usize, end: usize, at: usize, n: usize) {
    for i in first..end {
        lower(book, i, at, n);
    }
}

// part i is given up; where no other entry has it the parts above move down
pub fn free(book: &mut [usize], numbers: &mut [f32], first: usize, end: usize, i: usize) {
    let at = trace_store_names::place(book, i);
    let n = trace_store_names::len(book, i);
    let most = top(book, first, end, 0);
    trace_store_names::set_place(book, i, 0, 0);
    if n == 0 || is_kept(book, first, end, at) {
        return;
    }
    let from = sum(at, n);
    trace_store_names::copy_down(numbers, from, at, less(most, from));
    lower_all(book, first, end, at, n);
}

// n numbers from `at` on are 0; false where there are not so many
fn cleared(numbers: &mut [f32], at: usize, n: usize) -> bool {
    if numbers.len() < at || numbers.len() - at < n {
        return false;
    }
    numbers[at..at + n].fill(0.0);
    true
}

// part i is n numbers, all 0, behind the others; false where there is no room
pub fn give(
    book: &mut [usize],
    numbers: &mut [f32],
    first: usize,
    end: usize,
    base: usize,
    i: usize,
    n: usize,
) -> bool {
    let at = top(book, first, end, base);
    if !cleared(numbers, at, n) {
        return false;
    }
    trace_store_names::set_place(book, i, at, n);
    true
}

// ---- equal tables

fn same_at(numbers: &[f32], a: usize, b: usize) -> bool {
    match (numbers.get(a), numbers.get(b)) {
        (Some(&x), Some(&y)) => hex_words::bits_of(x) == hex_words::bits_of(y),
        _ => false,
    }
}

// whether n numbers from a and from b on are equal
fn same(numbers: &[f32], a: usize, b: usize, n: usize) -> bool {
    (0..n).all(|i| same_at(numbers, sum(a, i), sum(b, i)))
}

fn is_equal(book: &[usize], numbers: &[f32], i: usize, at: usize, n: usize) -> bool {
    trace_store_names::len(book, i) == n && same(numbers, trace_store_names::place(book, i), at, n)
}

// where, among the entries, n numbers stand that equal those from `at` on; `at` where nowhere
pub fn found(
    book: &[usize],
    numbers: &[f32],
    first: usize,
    end: usize,
    at: usize,
    n: usize,
) -> usize {
    (first..end)
        .find(|&i| is_equal(book, numbers, i, at, n))
        .map_or(at, |i| trace_store_names::place(book, i))
}
