// A way from a tree's root down towards a leaf, noting at each level which side it takes.
ghost use Rattle.std.specs.Prelude.{◌-◌, ◌^◌, ◌<◌, ◌≤◌};

mod down;

#[derive(Clone, Copy)]
pub(crate) struct Way {
    // how many leaves the subtree has that the way has come to, and the leaf's place among them
    pub count: u64,
    pub place: u64,
    // how many levels down that is
    pub levels: usize,
    // a bit for each level, the last one lowest: 1 if the way went right
    pub turns: u64,
    ghost inside: { place < count },
    ghost deep: { levels ≤ 64 },
    ghost small: { count ≤ 2 ^ (64 - levels) },
    ghost noted: { turns < 2 ^ levels },
}
