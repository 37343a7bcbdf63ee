// The hash value over blocks of 64 bytes.
ghost use Rattle.std.specs.Prelude.{◌≡◌, ◌/◌, ◌≤◌, length, take};
ghost use Rattle.sha256.specs.Standard.{blocks, hashed};

use crate::round::hashed_under_lanes;
use crate::schedule::fill_keys;
use crate::words::Words;
use std::simd::prelude::*;

// Over the first `count` of four blocks; `keys` is where theirs are made. It says how many, and picks no step.
fn compressed_lanes(
    words: Words<u32>,
    keys: &mut [u32x4; 65],
    four: &[[u8; 64]; 4],
    count: usize,
) -> Words<u32>
    requires { count ≤ 4 }
    ensures value { result ≡ hashed words (take count four.now) }
    ensures all { count ≡ 4 → result ≡ hashed words four.now }
{
    fill_keys(keys, four);
    hashed_under_lanes(words, keys, count)
}

// At most four blocks, with others after them: how many count is told beside, since memory is fixed.
fn as_four(rest: &[[u8; 64]]) -> [[u8; 64]; 4]
    requires { length rest.now ≤ 4 }
    ensures { take (length rest.now) result ≡ rest.now }
{
    let mut four = [[0; 64]; 4];
    four[..rest.len()].copy_from_slice(rest);
    four
}

// Over each whole block of `bytes`.
pub(crate) fn compressed(words: Words<u32>, bytes: &[u8]) -> Words<u32>
    ensures { result ≡ hashed words (blocks (length bytes.now / 64) bytes.now) }
{
    let mut words = words;
    let mut keys = [u32x4::splat(0); 65];
    let (whole, _) = bytes.as_chunks::<64>();
    let (fours, rest) = whole.as_chunks::<4>();
    for four in fours {
        words = compressed_lanes(words, &mut keys, four, 4);
    }
    if rest.is_empty() {
        return words;
    }
    compressed_lanes(words, &mut keys, &as_four(rest), rest.len())
}
