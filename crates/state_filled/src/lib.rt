// Lists of at most as many things as there are slots.
#![tactic(auto)]

ghost use Rattle.std.specs.Prelude.{◌≡◌, min};
ghost use Rattle.config.specs.Sizes.{slots};
ghost use Rattle.list.specs.Padded.{padded};
ghost use Rattle.state_filled.specs.Filled.{added};

use arrayvec::ArrayVec;
use config::SLOTS;

// At most as many things as there are slots.
pub type List<T> = ArrayVec<T, SLOTS>;

// n, or SLOTS where it is more
pub fn held(n: usize) -> usize
    ensures { result ≡ min n slots }
{
    n.min(SLOTS)
}

// One more, where there is room.
pub fn add<T: Drop>(list: &mut List<T>, x: T)
    ensures { list.new.items ≡ added list.old.items x }
{
    if !list.is_full() {
        list.push(x);
    }
}

// The things, and blanks behind them.
pub fn padded<T: Copy>(list: &List<T>, blank: T) -> [T; SLOTS]
    ensures { result ≡ padded slots blank list.now.items }
{
    let mut all = [blank; SLOTS];
    all[..list.len()].copy_from_slice(list);
    all
}
