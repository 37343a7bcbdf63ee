// What is signed, and the bytes that are signed: all before the signature.
ghost use Rattle.std.specs.Prelude.{◌≡◌, ℕ, ◌+◌, ◌<◌, ◌≤◌, List, ◌++◌, length, vec_len, vec_capacity, MatchOption, MatchResult};
ghost use Rattle.wire_theory.specs.Bytes.{Bytes};
ghost use Rattle.wire_theory.specs.Messages.{signed_revoke};
ghost use Rattle.wire_write.specs.Grows.{Grows};
ghost use Rattle.wire_write.specs.Written.{Refuses, Written};

use crate::put::Put;
use wire::{Kind, Refusal, Signature};

// Only this crate can name it, so nobody else has to see that there is room.
pub trait Signed: Copy {
    // the bytes that are signed, and how many they are
    ghost signed: { Self → Bytes };

    ghost signed_size: { Self → ℕ };

    ghost seal: { Self → Bytes };

    // it is well-formed; what is wrong where it is refused; what is needed to write it
    ghost Fits: { Self → Type 0 };

    ghost Wrong: { Self → Type 0 };

    ghost Ready: { Self → Type 0 } = { λ _. Unit {0} };

    // How many bytes it takes with its signature, if it is well-formed.
    fn size(self) -> Option<usize>
        ensures { MatchOption result (Wrong self) (λ n. (n ≡ signed_size self + 64) × Fits self × Ready self) };

    fn put_signed(&self, out: &mut Vec<u8>)
        requires room { vec_len out.old + signed_size self.now ≤ vec_capacity out.old }
        requires ready { Ready self.now }
        ensures grows { Grows out.old out.new (signed self.now) }
        ensures len { vec_len out.new ≡ vec_len out.old + signed_size self.now };

    fn signature(&self) -> &Signature
        ensures { result.now.bytes ≡ seal self.now };
}

impl<T: Signed> Put for T {
    ghost bytes = { λ t. T.signed t ++ T.seal t };

    ghost size = { λ t. T.signed_size t + 64 };

    ghost Ready = { T.Ready };

    fn put(&self, out: &mut Vec<u8>) {
        self.put_signed(out);
        self.signature().bytes.put(out);
    }
}

// Writes the bytes that are signed, or nothing.
pub fn write_signed<T: Signed>(thing: T, out: &mut Vec<u8>) -> Result<(), Refusal>
    ensures { MatchResult result (λ _. Written out.old out.new (T.signed thing) (T.Fits thing)) (Refuses out.old out.new (T.Wrong thing)) }
{
    let size = thing.size().ok_or(Refusal::Unreadable)?;
    out.reserve(size)?;
    thing.put_signed(out);
    Ok(())
}

// What is signed to ask an authority to revoke: its number stands before the message's bytes.
#[tactic(auto, unfolding(wire_theory::specs::Messages::signed_revoke))]
pub fn write_signed_revoke(authority: u8, serial: u64, out: &mut Vec<u8>) -> Result<(), Refusal>
    ensures { MatchResult result (λ _. Written out.old out.new (signed_revoke authority serial) (Unit {0})) (Refuses out.old out.new ⊥) }
{
    out.reserve(10)?;
    authority.put(out);
    Kind::Revoke.put(out);
    serial.put(out);
    Ok(())
}

// All bytes before the signature, which is the last 64: of a certificate, promise, head or list.
pub fn signed_part(s: &[u8]) -> Option<&[u8]>
    ensures { MatchOption result (length s.now < 64) (λ p. (signed seal : List ℕ) → length seal ≡ 64 → s.now ≡ signed ++ seal → p.now ≡ signed) }
{
    s.split_last_chunk::<64>().map(|(signed, _)| signed)
}
