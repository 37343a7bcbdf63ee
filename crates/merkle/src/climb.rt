// The way up a tree, from a subtree to the root, with the digests that lie beside the way.
ghost use Rattle.std.specs.Prelude.{◌≡◌, Bool, reverse};
ghost use Rattle.merkle.specs.Ways.{climbed};
ghost use Rattle.merkle.specs.declared.digest.Digest.{Digest as Beside};

use crate::digest::Digest;

// What is known of a subtree and can be carried over to the tree one level up.
pub(crate) trait Rise: Copy {
    ghost raised: { Bool → Beside → Self → Self };

    // From the right side or the left, with the digest of the other side. The side is a turn of the way, of which there is a row.
    fn rise(self, right: bool, beside: &Digest) -> Self
        ensures { result ≡ raised right beside.now self };
}

// `turns` has a bit for each level, the lowest level's first: 1 if the way down went right. The digests come from the root down.
pub(crate) fn climb<T: Rise>(start: T, turns: u64, beside: &[Digest]) -> T
    ensures { result ≡ climbed T.raised turns (reverse beside.now) start }
{
    let mut risen = start;
    let mut ahead = turns;
    for digest in beside.iter().rev() {
        risen = risen.rise(ahead % 2 == 1, digest);
        ahead /= 2;
    }
    risen
}
