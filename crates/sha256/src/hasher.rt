// The digest of a message that comes in parts.
ghost use Rattle.std.specs.Prelude.{◌≡◌, ℕ, ◌+◌, ◌*◌, ◌/◌, ◌%◌, ◌≤◌, List, [], ◌++◌, length, take, drop};
ghost use Rattle.std.proofs.Math.Seq.{paste};
ghost use Rattle.sha256.specs.Standard.{blocks, hashed, digest};
ghost use Rattle.sha256.specs.Streaming.{Fed};

use crate::block::compressed;
use crate::bytes::put;
use crate::padding::padded_end;
use crate::words::Words;

// Of the bytes so far, whole blocks have gone into `words`, and the others stand first in `buffer`.
// Its memory is fixed, since a hasher asks no allocator; how much is filled follows from the count.
#[derive(Drop)]
pub struct Hasher {
    words: Words<u32>,
    // How many bytes there were, modulo 2^64.
    count: u64,
    buffer: [u8; 64],
}

impl Hasher {
    pub fn new() -> Self
        ensures { Fed [] result }
    {
        Hasher {
            words: Words::FIRST,
            count: 0,
            buffer: [0; 64],
        }
    }

    fn filled(&self) -> usize
        ensures { result ≡ self.now.count % 64 }
    {
        (self.count % 64) as usize
    }

    fn keep(&mut self, at: usize, part: &[u8])
        requires { at + length part.now ≤ 64 }
        ensures words { self.new.words ≡ self.old.words }
        ensures count { self.new.count ≡ self.old.count }
        ensures buffer { self.new.buffer ≡ paste self.old.buffer at part.now (length part.now) }
    {
        put(&mut self.buffer, at, part);
    }

    // Takes in `part`, where nothing is in the buffer.
    fn take_in(&mut self, part: &[u8])
        ensures words { self.new.words ≡ hashed self.old.words (blocks (length part.now / 64) part.now) }
        ensures count { self.new.count ≡ self.old.count }
        ensures buffer { take (length part.now % 64) self.new.buffer ≡ drop (length part.now / 64 * 64) part.now }
    {
        self.words = compressed(self.words, part);
        let whole = part.len() / 64 * 64;
        self.keep(0, &part[whole..]);
    }

    pub fn update(&mut self, part: &[u8])
        ensures { (m : List ℕ) → Fed m self.old → Fed (m ++ part.now) self.new }
    {
        let filled = self.filled();
        self.count = self.count.wrapping_add(part.len() as u64);
        if filled == 0 {
            return self.take_in(part);
        }
        let room = 64 - filled;
        if part.len() < room {
            return self.keep(filled, part);
        }
        let (head, rest) = part.split_at(room);
        self.keep(filled, head);
        self.words = compressed(self.words, &self.buffer);
        self.take_in(rest);
    }

    pub fn finalize(self) -> [u8; 32]
        ensures { (m : List ℕ) → Fed m self → result ≡ digest m }
    {
        let filled = self.filled();
        let rest = &self.buffer[..filled];
        let bits = self.count.wrapping_mul(8);
        // What is left, a byte and eight more, in one block or two.
        if filled < 56 {
            return compressed(self.words, &padded_end::<64>(rest, bits)).to_bytes();
        }
        compressed(self.words, &padded_end::<128>(rest, bits)).to_bytes()
    }
}
