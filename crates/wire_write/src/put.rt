// Appends bytes where room was reserved, so that nothing can be wanting in the middle of a message.
ghost use Rattle.std.specs.Prelude.{◌≡◌, ℕ, ◌+◌, ◌≤◌, List, [], ◌∷◌, ◌++◌, length, Some, vec_len, vec_capacity, MatchResult, ◌≢◌};
ghost use Rattle.wire_theory.specs.Bytes.{Bytes, big};
ghost use Rattle.wire.specs.Refusals.{refusal_number};
ghost use Rattle.wire_write.specs.Grows.{Grows};

use wire::Refusal;

// What stands in messages as bytes.
pub(crate) trait Put {
    ghost bytes: { Self → Bytes };

    // how many they are
    ghost size: { Self → ℕ };

    // what is needed to write them: mostly nothing
    ghost Ready: { Self → Type 0 } = { λ _. Unit {0} };

    fn put(&self, out: &mut Vec<u8>)
        requires room { vec_len out.old + size self.now ≤ vec_capacity out.old }
        requires ready { Ready self.now }
        ensures grows { Grows out.old out.new (bytes self.now) }
        ensures len { vec_len out.new ≡ vec_len out.old + size self.now };
}

impl<'a> Put for &'a [u8] {
    ghost bytes = { λ s. s.now };

    ghost size = { λ s. length s.now };

    fn put(&self, out: &mut Vec<u8>) {
        let _ = out.extend_from_slice(self);
    }
}

impl<const N: usize> Put for [u8; N] {
    ghost bytes = { λ a. a };

    ghost size = { λ a. N };

    fn put(&self, out: &mut Vec<u8>) {
        let _ = out.extend_from_slice(self);
    }
}

impl Put for u8 {
    ghost bytes = { λ n. n ∷ [] };

    ghost size = { λ _. 1 };

    fn put(&self, out: &mut Vec<u8>) {
        out.push_reserved(*self);
    }
}

impl Put for u32 {
    ghost bytes = { big 4 };

    ghost size = { λ _. 4 };

    fn put(&self, out: &mut Vec<u8>) {
        self.to_be_bytes().put(out);
    }
}

impl Put for u64 {
    ghost bytes = { big 8 };

    ghost size = { λ _. 8 };

    fn put(&self, out: &mut Vec<u8>) {
        eight_bytes(*self).put(out);
    }
}

// One behind the other. Both are borrowed, since a function pays for the size of its locals.
impl<A: Put, B: Put> Put for (&A, &B) {
    ghost bytes = { λ p. A.bytes p.0.now ++ B.bytes p.1.now };

    ghost size = { λ p. A.size p.0.now + B.size p.1.now };

    ghost Ready = { λ p. A.Ready p.0.now × B.Ready p.1.now };

    fn put(&self, out: &mut Vec<u8>) {
        self.0.put(out);
        self.1.put(out);
    }
}

pub(crate) fn eight_bytes(n: u64) -> [u8; 8]
    ensures { result ≡ big 8 n }
{
    n.to_be_bytes()
}

// Writes a number into the eight bytes that are lent for it.
pub fn write_number(place: &mut [u8], n: u64) -> Result<(), Refusal>
    ensures { MatchResult result (λ _. place.new ≡ big 8 n) (λ e. (refusal_number e ≡ Some 1) × (place.new ≡ place.old) × (length place.old ≢ 8)) }
{
    if place.len() != 8 {
        return Err(Refusal::Unreadable);
    }
    place.copy_from_slice(&eight_bytes(n));
    Ok(())
}
