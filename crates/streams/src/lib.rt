// Bytes to a writer and from a reader, and whole numbers as text. A call that fails, that a signal interrupts, or that
// moves no byte is the last one: how many bytes moved is the answer, and there is no error.
#![tactic(auto)]

ghost use Rattle.std.specs.Prelude.{◌≡◌, ◌≤◌, ◌+◌, length, take, decimal, IsTrue};
ghost use Rattle.std.specs.Io.KnownBytes.{Appends, Consumes};

use std::fmt::InlineText;
use std::io;
use std::io::{Read, Write};

// What one write takes; nothing where it fails.
fn taken<W: Write>(to: &mut W, bytes: &[u8]) -> usize
    ensures within { result ≤ length bytes.now }
    ensures known { Appends (W.contents to.old) (W.contents to.new) (take result bytes.now) }
{
    match to.write(bytes) {
        Ok(n) => n,
        Err(_) => 0,
    }
}

// Writes the bytes, and answers how many of them were taken: all, unless a write failed or took none.
pub fn write<W: Write>(to: &mut W, bytes: &[u8]) -> usize
    ensures within { result ≤ length bytes.now }
    ensures known { Appends (W.contents to.old) (W.contents to.new) (take result bytes.now) }
{
    let mut done = 0usize;
    // Not a for: the step is what was taken.
    while done < bytes.len() {
        let n = taken(to, &bytes[done..]);
        if n == 0 {
            return done;
        }
        done += n;
    }
    done
}

// Writes the bytes, and answers whether all of them were taken.
pub fn write_all<W: Write>(to: &mut W, bytes: &[u8]) -> bool
    ensures { IsTrue result → Appends (W.contents to.old) (W.contents to.new) bytes.now }
{
    write(to, bytes) == bytes.len()
}

// Writes the decimal digits of a whole number, and answers whether all of them were taken.
pub fn write_decimal<W: Write>(to: &mut W, n: u64) -> bool
    ensures { IsTrue result → Appends (W.contents to.old) (W.contents to.new) (decimal n) }
{
    let mut digits = itoa::Buffer::new();
    write_all(to, digits.format(n).as_bytes())
}

// The reason that an error's text gives, without its number.
fn reason(text: &str) -> &str {
    match text.rsplit_once(" (os error ") {
        Some((before, _)) => before,
        None => text,
    }
}

// Writes a line that says what failed, and why.
pub fn write_failure<W: Write>(to: &mut W, what: &str, error: io::Error) {
    let text = InlineText::<96>::of(error);
    write(to, what.as_bytes());
    write(to, b": ");
    write(to, reason(text.as_str()).as_bytes());
    write(to, b"\n");
}

// What one read gives, at the start of the buffer; nothing where it fails.
fn given<R: Read>(from: &mut R, buffer: &mut [u8]) -> usize
    ensures within { result ≤ length buffer.new }
    ensures known { Consumes (R.remaining from.old) (R.remaining from.new) (take result buffer.new) }
{
    match from.read(buffer) {
        Ok(n) => n,
        Err(_) => 0,
    }
}

// Reads until the buffer is full, and answers how many bytes were given: less only where the input ended or a read
// failed.
pub fn read<R: Read>(from: &mut R, buffer: &mut [u8]) -> usize
    ensures within { result ≤ length buffer.new }
    ensures known { Consumes (R.remaining from.old) (R.remaining from.new) (take result buffer.new) }
{
    let mut done = 0usize;
    // Not a for: the step is what was given.
    while done < buffer.len() {
        let n = given(from, &mut buffer[done..]);
        if n == 0 {
            return done;
        }
        done += n;
    }
    done
}

#[cfg(test)]
mod tests;
