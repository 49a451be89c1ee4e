// Reads, fills and copies of lent numbers.
#![tactic(auto)]

ghost use Rattle.std.specs.Prelude.{◌≡◌, ◌⊎◌, ◌+◌, ◌-◌, ◌≤◌, length, get_or, replicate};
ghost use Rattle.list.specs.Part.{part, on_part};

// What stands at i, or `other` where the slice has no i.
pub fn read(xs: &[f32], i: usize, other: f32) -> f32
    ensures { result ≡ get_or xs.now i other }
{
    xs.get(i).copied().unwrap_or(other)
}

// Every number becomes x.
pub fn fill(out: &mut [f32], x: f32)
    ensures { out.new ≡ replicate (length out.old) x }
{
    out.fill(x);
}

// Every number from a up to e becomes x.
pub fn fill_part(mem: &mut [f32], a: usize, e: usize, x: f32)
    requires { (a ≤ e) × (e ≤ length mem.old) }
    ensures { mem.new ≡ on_part mem.old a e (replicate (e - a) x) }
{
    fill(&mut mem[a..e], x);
}

// The numbers become those of xs.
pub fn copy(out: &mut [f32], xs: &[f32])
    requires { length xs.now ≡ length out.old }
    ensures { out.new ≡ xs.now }
{
    out.copy_from_slice(xs);
}

// The numbers from a up to e become those of xs.
pub fn copy_part(mem: &mut [f32], a: usize, e: usize, xs: &[f32])
    requires { (a ≤ e) × (e ≤ length mem.old) × (length xs.now ≡ e - a) }
    ensures { mem.new ≡ on_part mem.old a e xs.now }
{
    copy(&mut mem[a..e], xs);
}

// The n numbers at `to` become those at `from`, where the two parts lie apart.
pub fn copy_within(mem: &mut [f32], from: usize, to: usize, n: usize)
    requires { (from + n ≤ length mem.old) × (to + n ≤ length mem.old) × ((from + n ≤ to) ⊎ (to + n ≤ from)) }
    ensures { mem.new ≡ on_part mem.old to (to + n)
        (part mem.old from (from + n)) }
{
    // Not the slice's copy_within: that copies parts that overlap too, so it would meet what the edit
    // copy_within_overlap asks, which has to be refused.
    for i in 0..n {
        let from_i = from + i;
        let to_i = to + i;
        mem[to_i] = mem[from_i];
    }
}
