#![tactic(auto)]

ghost use Rattle.std.specs.Prelude.{◌≡◌, ◌*◌, ◌%◌, ◌^◌};
ghost use Rattle.draw.specs.Xorshift.{step, draw_bits, draw_of};

// The multiplier of xorshift64*.
const MULTIPLIER: u64 = 2685821657736338717;

// a * b modulo 2^64, by halves of 32 bits. The product of the upper halves is a multiple of 2^64 and is left out.
pub fn wrapping_mul(a: u64, b: u64) -> u64
    ensures { result ≡ a * b % 2 ^ 64 }
{
    let a0 = a % 4294967296;
    let a1 = a / 4294967296;
    let b0 = b % 4294967296;
    let b1 = b / 4294967296;
    let low = a0 * b0;
    let p = a1 * b0;
    let q = a0 * b1;
    let mid = (p % 4294967296 + q % 4294967296) % 4294967296;
    std::num::wrapping_add_u64(low, mid * 4294967296)
}

// The state after the state x.
pub fn step(x: u64) -> u64
    ensures { result ≡ step x }
{
    let a = x ^ (x >> 12);
    let b = a ^ (a << 25);
    b ^ (b >> 27)
}

// The 24 bits drawn at the state x.
pub fn bits(x: u64) -> u64
    ensures { result ≡ draw_bits x }
{
    wrapping_mul(x, MULTIPLIER) >> 40
}

// The number drawn at the state x, from 0 to below 1: its 24 bits over 2^24, exactly.
pub fn draw(x: u64) -> f32
    ensures { result ≡ draw_of x }
{
    bits(x) as f32 / 16777216.0
}
