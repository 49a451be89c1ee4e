// The bytes of a key, written word by word and number by number, and read back. The definitions that contracts cite are
// in specs/.
#![tactic(auto)]

ghost use Rattle.std.specs.Prelude.{◌≡◌, ◌+◌, ◌≤◌, ◌<◌, ltb};
ghost use Rattle.source_key.specs.Text.{blank_text, put_byte, put_all, decimal};
ghost use Rattle.source_key.specs.Numbered.{is_digit, longer, read_on, number_then, is_numbered};

use state::KEY_BYTES;

// A key as it is written: the bytes so far, then zeros, and how many there are (no heap: the memory is fixed).
#[derive(Clone, Copy)]
pub struct Text {
    pub bytes: [u8; KEY_BYTES],
    pub len: usize,
}

// nothing written
pub fn blank() -> Text
    ensures { result ≡ blank_text }
{
    Text {
        bytes: [0u8; KEY_BYTES],
        len: 0,
    }
}

// one byte more, as long as there is room
pub fn put(text: Text, byte: u8) -> Text
    ensures { result ≡ put_byte text byte }
{
    let n = text.len;
    if KEY_BYTES <= n {
        return text;
    }
    let mut next = text;
    next.bytes[n] = byte;
    next.len = n + 1;
    next
}

// the bytes of a word
pub fn put_word(text: Text, word: &[u8]) -> Text
    ensures { result ≡ put_all text word.now }
{
    let mut next = text;
    for i in 0..word.len() {
        let more = put(next, word[i]);
        next = more;
    }
    next
}

// the digit of a number below 10
fn digit(n: usize) -> u8
    requires { n < 10 }
    ensures { result ≡ 48 + n }
{
    48 + (n as u8)
}

// the decimal digits of a number below 1000
pub fn put_number(text: Text, n: usize) -> Text
    requires { n < 1000 }
    ensures { result ≡ put_all text (decimal n) }
{
    if n < 10 {
        return put(text, digit(n));
    }
    if n < 100 {
        return put(put(text, digit(n / 10)), digit(n % 10));
    }
    let hundreds = put(text, digit(n / 100));
    put(put(hundreds, digit(n / 10 % 10)), digit(n % 10))
}

fn is_digit(byte: u8) -> bool
    ensures { result ≡ is_digit byte }
{
    if byte < b'0' {
        return false;
    }
    byte <= b'9'
}

// Whether a number with this digit after it is above n.
fn above(v: usize, byte: u8, n: usize) -> bool
    requires { 48 ≤ byte }
    ensures { result ≡ ltb n (longer v byte) }
{
    let digit = (byte - b'0') as usize;
    if n < digit {
        return true;
    }
    (n - digit) / 10 < v
}

// A number with this digit after it.
fn next_number(v: usize, byte: u8, n: usize) -> usize
    requires { (48 ≤ byte) × (longer v byte ≤ n) }
    ensures { result ≡ longer v byte }
{
    v * 10 + (byte - b'0') as usize
}

// Whether these are the digits of a number up to n, and then `after`.
fn reads_on(rest: &[u8], after: &[u8], n: usize) -> bool
    ensures { result ≡ read_on n after.now 0 rest.now }
{
    let mut v = 0usize;
    for i in 0..rest.len() {
        let byte = rest[i];
        if !is_digit(byte) {
            return &rest[i..] == after;
        }
        if above(v, byte, n) {
            return false;
        }
        v = next_number(v, byte, n);
    }
    after.len() == 0
}

// Whether these are the digits of a number from 1 to n, the first not 0, and then `after`.
fn number_then(rest: &[u8], after: &[u8], n: usize) -> bool
    ensures { result ≡ number_then n after.now rest.now }
{
    if rest.len() == 0 {
        return false;
    }
    let first = rest[0];
    if first < b'1' {
        return false;
    }
    if b'9' < first {
        return false;
    }
    reads_on(rest, after, n)
}

// Whether the key is one of word 1 to word n, with `after` behind it.
pub fn is_numbered(key: &[u8], word: &[u8], after: &[u8], n: usize) -> bool
    ensures { result ≡ is_numbered word.now after.now n key.now }
{
    let start = word.len();
    if key.len() < start {
        return false;
    }
    if word != &key[..start] {
        return false;
    }
    number_then(&key[start..], after, n)
}
