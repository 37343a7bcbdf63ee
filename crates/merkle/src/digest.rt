// A digest as a type of its own; two are equal exactly if their bytes are.
ghost use Rattle.std.specs.Prelude.{◌≡◌, Decides};

#[derive(Clone, Copy, PartialEq, Eq, Debug)]
pub struct Digest {
    pub bytes: [u8; 32],
}

impl From<[u8; 32]> for Digest {
    ghost from_gives = { λ b d. d ≡ record { bytes = b } };

    fn from(bytes: [u8; 32]) -> Digest {
        Digest { bytes }
    }
}

// Two digests are equal exactly if they are the same.
pub fn equality_tells_digests_apart()
    ensures { (a b : Digest) → Decides (⟦<Digest as PartialEq>⟧.eq a b) (a ≡ b) }
{}
