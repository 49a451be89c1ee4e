// Numbers as text: hexadecimal words, and the bits of a binary32.
#![tactic(auto)]

ghost use Rattle.std.specs.Prelude.{◌≡◌, ◌<◌, ◌^◌, ◌+◌, get_or};
ghost use Rattle.std.specs.Float.{binary32};
ghost use Rattle.std.specs.Float.Ieee.{of_bits, to_bits};
ghost use Rattle.hex_words.specs.Hex.{digit_of, hex_at};

// the number of a bit pattern; every NaN's pattern is the NaN
pub fn of_bits(n: u32) -> f32
    ensures { result ≡ of_bits binary32 n }
{
    if 0x7f80_0000 < n % 0x8000_0000 {
        return 0.0 / 0.0;
    }
    f32::from_bits(n)
}

// the bit pattern of a number; a NaN's is 7FC00000
pub fn bits_of(x: f32) -> u32
    ensures { result ≡ to_bits binary32 x }
{
    if x != x {
        return 0x7fc0_0000;
    }
    f32::to_bits(x)
}

// the number of a hexadecimal digit, upper or lower case; 0 for any other byte
#[tactic(auto, unfolding(crate::specs::Hex::digit_of))]
fn digit(b: u8) -> u64
    ensures { (result ≡ digit_of b) × (result < 16) }
{
    match b {
        b'0'..=b'9' => (b - b'0') as u64,
        b'A'..=b'F' => (b - b'A' + 10) as u64,
        b'a'..=b'f' => (b - b'a' + 10) as u64,
        _ => 0,
    }
}

// a byte of the text, 0 past its end
fn byte(s: &[u8], at: usize) -> u8
    ensures { result ≡ get_or s.now at 0 }
{
    s.get(at).copied().unwrap_or(0)
}

// the number that n hexadecimal digits stand for, from a place of the text on; of more than 16 the last 16 count
pub fn hex(s: &[u8], at: usize, n: usize) -> u64
    requires { at + n < 2 ^ 64 }
    ensures { result ≡ hex_at s.now at n }
{
    let mut value = 0u64;
    for i in 0..n {
        value = value % 0x1000_0000_0000_0000 * 16 + digit(byte(s, at + i));
    }
    value
}
