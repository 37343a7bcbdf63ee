// What is left of a message's bytes: its fields are taken from the front, one after the other.
ghost use Rattle.std.specs.Prelude.{◌≡◌, ℕ, ◌*◌, ◌≤◌, List, [], ◌∷◌, length, MatchBool, MatchOption};
ghost use Rattle.wire_theory.specs.Bytes.{big};
ghost use Rattle.wire.specs.Taking.{Takes, TakesKind, TakesName, TakesPath, TakesWithin};

use crate::field::{number_in, short_in, word_in};
use crate::kind::Kind;
use crate::parts::Digests;
use crate::seal::{Key, Nonce, Signature};
use merkle::Digest;
use std::marker::Model;

#[derive(Drop)]
pub(crate) struct Fields<'a> {
    rest: &'a [u8],
}

// Clauses see the bytes.
impl<'a> Model for Fields<'a> {
    ghost Value = { List ℕ };

    ghost view = { λ f. f.rest.now };
}

impl<'a> Fields<'a> {
    pub(crate) fn of(bytes: &'a [u8]) -> Fields<'a>
        ensures { result ≡ bytes.now }
    {
        Fields { rest: bytes }
    }

    pub(crate) fn rest(self) -> &'a [u8]
        ensures { result.now ≡ self.entry }
    {
        self.rest
    }

    pub(crate) fn is_empty(&self) -> bool
        ensures { MatchBool result (self.now ≡ []) (self.now ≡ [] → ⊥) }
    {
        self.rest.is_empty()
    }

    pub(crate) fn len(&self) -> usize
        ensures { result ≡ length self.now }
    {
        self.rest.len()
    }

    // Some where no bytes are left.
    pub(crate) fn end(&self) -> Option<()>
        ensures { MatchOption result (self.now ≡ [] → ⊥) (λ _. self.now ≡ []) }
    {
        self.rest.is_empty().then_some(())
    }

    pub(crate) fn byte(&mut self) -> Option<u8>
        ensures { Takes 1 (λ b. b ∷ []) self.old self.new result }
    {
        let (byte, rest) = self.rest.split_first()?;
        self.rest = rest;
        Some(*byte)
    }

    pub(crate) fn kind(&mut self, kind: Kind) -> Option<()>
        ensures { TakesKind kind self.old self.new result }
    {
        (self.byte()? == kind.number()).then_some(())
    }

    pub(crate) fn bytes(&mut self, n: usize) -> Option<&'a [u8]>
        ensures { Takes n (λ a. a.now) self.old self.new result }
    {
        let (bytes, rest) = self.rest.split_at_checked(n)?;
        self.rest = rest;
        Some(bytes)
    }

    fn array<const N: usize>(&mut self) -> Option<&'a [u8; N]>
        ensures { Takes N (λ a. a.now) self.old self.new result }
    {
        let (array, rest) = self.rest.split_first_chunk()?;
        self.rest = rest;
        Some(array)
    }

    // A line for each size of number.
    pub(crate) fn short(&mut self) -> Option<u16>
        ensures { Takes 2 (big 2) self.old self.new result }
    {
        Some(short_in(self.array()?))
    }

    fn word(&mut self) -> Option<u32>
        ensures { Takes 4 (big 4) self.old self.new result }
    {
        Some(word_in(self.array()?))
    }

    pub(crate) fn word_within(&mut self, low: u32, high: u32) -> Option<u32>
        ensures { TakesWithin low high self.old self.new result }
    {
        let word = self.word()?;
        if !(low..=high).contains(&word) {
            return None;
        }
        Some(word)
    }

    pub(crate) fn number(&mut self) -> Option<u64>
        ensures { Takes 8 (big 8) self.old self.new result }
    {
        Some(number_in(self.array()?))
    }

    // One for each type, since none must pass for another; what they share is `array`.
    pub(crate) fn digest(&mut self) -> Option<Digest>
        ensures { Takes 32 (λ d. d.bytes) self.old self.new result }
    {
        Some(Digest {
            bytes: *self.array()?,
        })
    }

    pub(crate) fn key(&mut self) -> Option<Key>
        ensures { Takes 32 (λ k. k.bytes) self.old self.new result }
    {
        Some(Key {
            bytes: *self.array()?,
        })
    }

    pub(crate) fn nonce(&mut self) -> Option<Nonce>
        ensures { Takes 16 (λ n. n.bytes) self.old self.new result }
    {
        Some(Nonce {
            bytes: *self.array()?,
        })
    }

    pub(crate) fn signature(&mut self) -> Option<Signature>
        ensures { Takes 64 (λ s. s.bytes) self.old self.new result }
    {
        Some(Signature {
            bytes: *self.array()?,
        })
    }

    // A name stands behind its length.
    pub(crate) fn name(&mut self) -> Option<&'a [u8]>
        ensures { TakesName self.old self.new result }
    {
        let n = self.byte()?;
        if n > 64 {
            return None;
        }
        self.bytes(n as usize)
    }

    pub(crate) fn digests(&mut self, n: usize) -> Option<Digests<'a>>
        requires { n ≤ 65536 }
        ensures { Takes (32 * n) (λ d. d.bytes.now) self.old self.new result }
    {
        let bytes = self.bytes(32 * n)?;
        Some(Digests { bytes })
    }

    // The digests of a path stand behind their number.
    pub(crate) fn path(&mut self) -> Option<Digests<'a>>
        ensures { TakesPath self.old self.new result }
    {
        let n = self.byte()?;
        self.digests(n as usize)
    }
}
