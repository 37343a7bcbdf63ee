// The 64 rounds of a block.
//
// A round's key is its word of the schedule with its constant added. The longest chain of sums of a
// round starts at `h`, so the key is added to `h` one round before, beside the chain: such words are
// called loaded.
ghost use Rattle.std.specs.Prelude.{◌≡◌, ℕ, ◌<◌, ◌≤◌, slice_index};
ghost use Rattle.std.specs.Fn.{FnReturnsAt};
ghost use Rattle.sha256.specs.Standard.{◌⊞◌, plus};
ghost use Rattle.sha256.specs.Steps.{turned, ahead, column, under_lanes};
ghost use Rattle.sha256.specs.Lanes.{lane_of, TakesLane};

use crate::functions::{big_sigma_0, big_sigma_1, majority};
use crate::word::Word;
use crate::words::Words;
use std::simd::prelude::*;

impl<W: Word> Words<W> {
    // The round of loaded words; `key` is loaded for the next.
    #[tactic(auto, unfolding(crate::specs::Steps::turned))]
    fn turn(self, key: W) -> Self
        ensures { (l : ℕ) → l < W.lanes → lane_of (W.lane l) result ≡ turned (lane_of (W.lane l) self) (W.lane l self.g ⊞ W.lane l key) }
    {
        let h = self.g.sum(key);
        let t1 = self
            .h
            .sum(big_sigma_1(self.e))
            .sum(self.e.choose(self.f, self.g));
        let t2 = big_sigma_0(self.a).sum(majority(self.a, self.b, self.c));
        Words {
            a: t1.sum(t2),
            b: self.a,
            c: self.b,
            d: self.c,
            e: self.d.sum(t1),
            f: self.e,
            g: self.f,
            h,
        }
    }

    // The hash values after the blocks whose keys `own` takes out of those of four: of lane `m` for lane `l`.
    pub(crate) fn hashed_under<F: Fn(&u32x4) -> W>(self, keys: &[u32x4; 65], own: F) -> Self
        requires { F.IsAlwaysCallable own }
        ensures { (l m : ℕ) → l < W.lanes → TakesLane (W.lane l) m (FnReturnsAt F.Fn own) → lane_of (W.lane l) result ≡ plus (lane_of (W.lane l) self) (ahead 64 (column m keys.now) (lane_of (W.lane l) self)) }
    {
        let mut s = Words {
            h: self.h.sum(own(&keys[0])),
            ..self
        };
        // By eights, since the inner loop is then unrolled.
        let (eights, _) = keys[1..].as_chunks::<8>();
        for eight in eights {
            for key in eight {
                s = s.turn(own(key));
            }
        }
        self.sum(s)
    }
}

// The hash value after the blocks whose keys are in the first `count` lanes, one after the other.
pub(crate) fn hashed_under_lanes(words: Words<u32>, keys: &[u32x4; 65], count: usize) -> Words<u32>
    requires { count ≤ 4 }
    ensures { result ≡ under_lanes count keys.now words }
{
    let mut words = words;
    // By lane: nothing goes over lanes, one is taken out of each key.
    for lane in 0..count {
        words = words.hashed_under(
            keys,
            |four: &u32x4| -> u32
                requires { lane < 4 }
                ensures { result ≡ slice_index four.now lane }
            { four.as_array()[lane] },
        );
    }
    words
}
