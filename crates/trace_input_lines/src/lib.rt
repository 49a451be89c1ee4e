// The lines of a text that is read in pieces: a buffer of which the bytes from `start` to before `end` are still to come.
#![tactic(auto)]

ghost use Rattle.std.specs.Prelude.{◌+◌, ◌<◌, ◌≤◌, length};

use std::io::Read;

// `last`: nothing comes after these bytes. `failed`: because the input can't be read. `inside`: they belong to a line that has
// been answered. `number`: how many lines began before them.
#[derive(Clone, Copy)]
pub struct Reader {
    pub start: usize,
    pub end: usize,
    pub last: bool,
    pub failed: bool,
    pub inside: bool,
    pub number: u64,
}

// before any byte
pub fn first() -> Reader {
    Reader {
        start: 0,
        end: 0,
        last: false,
        failed: false,
        inside: false,
        number: 0,
    }
}

fn moved(buffer: &mut [u8], from: usize, n: usize)
    requires { from + n ≤ length buffer.old }
{
    for i in 0..n {
        buffer[i] = buffer[from + i];
    }
}

// where the line at `start` ends: at its line feed, or at `end`
pub fn line_end(buffer: &[u8], start: usize, end: usize) -> usize
    ensures { start ≤ result }
{
    for i in start..end {
        if is_feed(buffer, i) {
            return i;
        }
    }
    start.max(end)
}

// the place after this one
pub fn after(i: usize) -> usize {
    i.wrapping_add(1)
}

fn is_feed(buffer: &[u8], i: usize) -> bool {
    matches!(buffer.get(i), Some(b'\n'))
}

// whether a line feed is ahead, or the buffer is full, or nothing more comes
fn is_ready(buffer: &[u8], r: Reader) -> bool {
    r.last || r.start == 0 && buffer.len() <= r.end || line_end(buffer, r.start, r.end) < r.end
}

// the bytes still to come at the start of the buffer
fn lowered(buffer: &mut [u8], r: Reader) -> Reader {
    if buffer.len() < r.end || r.end < r.start {
        return r;
    }
    let end = r.end - r.start;
    moved(buffer, r.start, end);
    Reader { start: 0, end, ..r }
}

// nothing more comes
fn over(r: Reader, failed: bool) -> Reader {
    Reader {
        last: true,
        failed,
        ..r
    }
}

// with what one more read brings
fn read_more<R: Read>(from: &mut R, buffer: &mut [u8], r: Reader) -> Reader {
    let end = r.end;
    if buffer.len() <= end {
        return over(r, false);
    }
    match from.read(&mut buffer[end..]) {
        Ok(0) => over(r, false),
        Ok(n) => Reader { end: end + n, ..r },
        Err(_) => over(r, true),
    }
}

// reads until a line feed is ahead, or the buffer is full, or nothing more comes: no more often than there are bytes to fill, and once more
fn read_line<R: Read>(from: &mut R, buffer: &mut [u8], r: Reader) -> Reader {
    let mut next = r;
    for _ in 0..usize::MAX {
        next = read_more(from, buffer, next);
        if is_ready(buffer, next) {
            return next;
        }
    }
    next
}

// the reader with a whole line ahead, or a full buffer, or the last bytes
fn ready<R: Read>(from: &mut R, buffer: &mut [u8], r: Reader) -> Reader {
    if is_ready(buffer, r) {
        return r;
    }
    let low = lowered(buffer, r);
    read_line(from, buffer, low)
}

// past the line that ends at `stop`; where there is no line feed there, its rest is still to be passed over
fn past(r: Reader, stop: usize) -> Reader {
    let inside = r.end <= stop;
    Reader {
        start: if inside { r.end } else { stop + 1 },
        inside,
        ..r
    }
}

// The bytes from `start` to before `stop`: line `number`, whole where `all` says so; none where they are the rest of a line.
// `done`: nothing comes any more, or no whole line and the input can't be read.
#[derive(Clone, Copy)]
pub struct Coming {
    pub start: usize,
    pub stop: usize,
    pub all: bool,
    pub done: bool,
    pub number: u64,
    pub reader: Reader,
}

// A line that has been answered has no bytes, and one that can't be read to its end neither.
fn ahead_of(r: Reader, stop: usize) -> Coming {
    let broken = r.failed && r.end <= stop;
    let number = if r.inside {
        r.number
    } else {
        r.number.wrapping_add(1)
    };
    Coming {
        start: if r.inside || broken { stop } else { r.start },
        stop,
        all: stop < r.end || r.last,
        done: r.end <= r.start || broken,
        number,
        reader: Reader {
            number,
            ..past(r, stop)
        },
    }
}

// what comes next of what is read
pub fn ahead<R: Read>(from: &mut R, buffer: &mut [u8], r: Reader) -> Coming {
    let next = ready(from, buffer, r);
    let stop = line_end(buffer, next.start, next.end);
    ahead_of(next, stop)
}
