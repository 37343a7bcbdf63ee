// Four digests of a tag byte and 64 bytes at once, a message to a lane.
ghost use Rattle.std.specs.Prelude.{◌≡◌, ℕ, ◌<◌, [], ◌∷◌, ◌++◌, length, take, replicate, slice_index, slice_index_or};
ghost use Rattle.sha256.specs.Standard.{bytes64, word_at, output, digest};
ghost use Rattle.sha256.specs.Lanes.{lane_of};
ghost use Rattle.sha256.specs.Steps.{column, keys_of};

use crate::schedule::{extend_keys, next_word, side_by_side};
use crate::words::Words;
use std::array;
use std::simd::prelude::*;

// The first block of such a message is the tag and 63 bytes: its words, straight from the pair, since
// to write it down first takes longer.
fn front_word(tag: u8, pair: &[u8; 64], t: usize) -> u32
    requires { t < 16 }
    ensures { result ≡ word_at (tag ∷ take 63 pair.now) t }
{
    if t == 0 {
        return u32::from_be_bytes([tag, pair[0], pair[1], pair[2]]);
    }
    let (words, _) = pair[3..].as_chunks::<4>();
    u32::from_be_bytes(words[t - 1])
}

// The second one is a byte, the padding, and that there are 520 bits.
fn last_word(pair: &[u8; 64]) -> u32
    ensures long { length pair.now ≡ 64 }
    ensures value { result ≡ word_at (slice_index pair.now 63 ∷ 0x80 ∷ (replicate 54 0 ++ bytes64 520)) 0 }
{
    u32::from_be_bytes([pair[63], 0x80, 0, 0])
}

fn fill_fronts(keys: &mut [u32x4; 65], tag: u8, pairs: &[[u8; 64]; 4])
    ensures { (l : ℕ) → l < 4 → column l keys.new ≡ keys_of (tag ∷ take 63 (slice_index_or pairs.now l [])) }
{
    // By index, as in `fill_keys`.
    for t in 0..16 {
        keys[t] = side_by_side(pairs, |pair| front_word(tag, pair, t));
    }
    extend_keys(keys, 0);
}

fn fill_backs(keys: &mut [u32x4; 65], pairs: &[[u8; 64]; 4])
    ensures long { (l : ℕ) → l < 4 → length (slice_index_or pairs.now l []) ≡ 64 }
    ensures filled { (l : ℕ) → l < 4 → column l keys.new ≡ keys_of (slice_index (slice_index_or pairs.now l []) 63 ∷ 0x80 ∷ (replicate 54 0 ++ bytes64 520)) }
{
    keys[0] = side_by_side(pairs, last_word);
    // By index, as in `fill_keys`.
    for t in 1..15 {
        keys[t] = u32x4::splat(0);
    }
    keys[15] = u32x4::splat(520);
    // By places, as in `extend_keys`. The word 15 before is one of the zeros.
    for t in 16..30 {
        keys[t] = next_word(keys[t - 2], keys[t - 7], u32x4::splat(0), keys[t - 16]);
    }
    for t in 30..32 {
        keys[t] = next_word(keys[t - 2], keys[t - 7], keys[t - 15], keys[t - 16]);
    }
    extend_keys(keys, 2);
}

pub fn sha256_four(tag: u8, pairs: &[[u8; 64]; 4]) -> [[u8; 32]; 4]
    ensures { (l : ℕ) → l < 4 → slice_index_or result l [] ≡ digest (tag ∷ slice_index_or pairs.now l []) }
{
    let whole = |four: &u32x4| -> u32x4
        ensures { result ≡ four.now }
    { *four };
    let mut keys = [u32x4::splat(0); 65];
    fill_fronts(&mut keys, tag, pairs);
    let middle = Words::splat(Words::FIRST).hashed_under(&keys, whole);
    fill_backs(&mut keys, pairs);
    let last = middle.hashed_under(&keys, whole);
    array::from_fn(
        |l: usize| -> [u8; 32]
            requires { l < 4 }
            ensures { result ≡ output (lane_of (λ w. slice_index w l) last) }
        { last.lane(l).to_bytes() },
    )
}
