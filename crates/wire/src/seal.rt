// Keys, signatures and nonces as types of their own: a key must not pass for a digest.
ghost use Rattle.std.specs.Prelude.{◌≡◌, Decides};

#[derive(Clone, Copy, PartialEq, Eq, Debug)]
pub struct Key {
    pub bytes: [u8; 32],
}

#[derive(Clone, Copy, PartialEq, Eq, Debug)]
pub struct Signature {
    pub bytes: [u8; 64],
}

#[derive(Clone, Copy, PartialEq, Eq, Debug)]
pub struct Nonce {
    pub bytes: [u8; 16],
}

// Two keys are equal exactly if they are the same, and so are two signatures and two nonces.
pub fn equality_tells_seals_apart()
    ensures keys { (a b : Key) → Decides (⟦<Key as PartialEq>⟧.eq a b) (a ≡ b) }
    ensures signatures { (a b : Signature) → Decides (⟦<Signature as PartialEq>⟧.eq a b) (a ≡ b) }
    ensures nonces { (a b : Nonce) → Decides (⟦<Nonce as PartialEq>⟧.eq a b) (a ≡ b) }
{}
