// Where a tree is split: the left side has as many leaves as the greatest power of two below their number.
ghost use Rattle.std.specs.Prelude.{◌≡◌, ◌^◌, ◌<◌};
ghost use Rattle.merkle_theory.specs.Tree.{split};

// The leaves of the left side of a tree of `count`; 1 where there are fewer than two.
pub fn left_size(count: u64) -> u64
    ensures { result ≡ split count }
{
    1 << left_height(count)
}

// How many levels of nodes the left side has.
fn left_height(count: u64) -> u32
    ensures is { split count ≡ 2 ^ result }
    ensures bound { result < 64 }
{
    if count < 2 { 0 } else { (count - 1).ilog2() }
}
