// The message schedules of four blocks at a time, a block to a lane. They do not depend on the hash
// value, so those of blocks that follow one another are made together.
ghost use Rattle.std.specs.Prelude.{◌≡◌, ℕ, ◌+◌, ◌*◌, ◌<◌, ◌≤◌, List, [], get_or, take, slice_index, slice_index_or};
ghost use Rattle.std.specs.Fn.{FnReturnsAt};
ghost use Rattle.sha256.specs.Standard.{◌⊞◌, ROTR, SSIG0, SSIG1, word_at, schedule};
ghost use Rattle.sha256.specs.Steps.{column, keys_of};

use crate::constants::CONSTANTS;
use crate::functions::{small_sigma_0, small_sigma_1};
use crate::word::Word;
use std::array;
use std::simd::prelude::*;

// What `read` finds in each of four, in the lane of its place.
pub(crate) fn side_by_side<F: Fn(&[u8; 64]) -> u32>(four: &[[u8; 64]; 4], read: F) -> u32x4
    requires { F.IsAlwaysCallable read }
    ensures { (l : ℕ) → l < 4 → FnReturnsAt F.Fn read (slice_index_or four.now l []) (slice_index result l) }
{
    u32x4::from_array(array::from_fn(|l| read(&four[l])))
}

fn word_at(block: &[u8; 64], t: usize) -> u32
    requires { t < 16 }
    ensures { result ≡ word_at block.now t }
{
    let (words, _) = block.as_chunks::<4>();
    u32::from_be_bytes(words[t])
}

// A word of the schedule, from those 2, 7, 15 and 16 before it.
pub(crate) fn next_word<W: Word>(by2: W, by7: W, by15: W, by16: W) -> W
    ensures { (l : ℕ) → l < W.lanes → W.lane l result ≡ SSIG1 (W.lane l by2) ⊞ W.lane l by7 ⊞ SSIG0 (W.lane l by15) ⊞ W.lane l by16 }
{
    small_sigma_1(by2)
        .sum(by7)
        .sum(small_sigma_0(by15))
        .sum(by16)
}

// Goes on from the first 16 + 8 * `from` words of the schedules of blocks to all their keys.
pub(crate) fn extend_keys(keys: &mut [u32x4; 65], from: usize)
    requires { from ≤ 6 }
    ensures { (l : ℕ) → l < 4 → (b : List ℕ) → take (16 + 8 * from) (column l keys.old) ≡ schedule (8 * from) b → column l keys.new ≡ keys_of b }
{
    // By places, since each word is made of some that stand before it. Two loops, since the inner one is
    // then unrolled.
    for i in from..6 {
        for j in 0..8 {
            let t = 16 + 8 * i + j;
            keys[t] = next_word(keys[t - 2], keys[t - 7], keys[t - 15], keys[t - 16]);
        }
    }
    for (t, constant) in CONSTANTS.iter().enumerate() {
        keys[t] = u32x4::splat(*constant).sum(keys[t]);
    }
    // The last round has no next one.
    keys[64] = u32x4::splat(0);
}

// Fills in the keys of four blocks, in place of others: so many bytes are not cleared each time.
pub(crate) fn fill_keys(keys: &mut [u32x4; 65], blocks: &[[u8; 64]; 4])
    ensures { (l : ℕ) → l < 4 → column l keys.new ≡ keys_of (slice_index_or blocks.now l []) }
{
    // By index: of what an `iter_mut` over a part of them wrote, a proof would know the length alone.
    for t in 0..16 {
        keys[t] = side_by_side(blocks, |block| word_at(block, t));
    }
    extend_keys(keys, 0);
}
