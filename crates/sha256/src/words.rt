// The eight words that SHA-256 works on: its variables a to h, and the hash value between blocks.
ghost use Rattle.std.specs.Prelude.{◌≡◌, ℕ, ◌/◌, ◌%◌, ◌<◌, slice_index};
ghost use Rattle.sha256.specs.Standard.{plus, bytes32, output};
ghost use Rattle.sha256.specs.Lanes.{lane_of};

use crate::word::Word;
use std::array;
use std::simd::prelude::*;

// Eight fields, since the standard has a name for each.
#[derive(Clone, Copy)]
pub struct Words<W> {
    pub a: W,
    pub b: W,
    pub c: W,
    pub d: W,
    pub e: W,
    pub f: W,
    pub g: W,
    pub h: W,
}

impl<W: Word> Words<W> {
    // The same words in each lane.
    pub(crate) fn splat(words: Words<u32>) -> Self
        ensures { (l : ℕ) → l < W.lanes → lane_of (W.lane l) result ≡ words }
    {
        Words {
            a: W::splat(words.a),
            b: W::splat(words.b),
            c: W::splat(words.c),
            d: W::splat(words.d),
            e: W::splat(words.e),
            f: W::splat(words.f),
            g: W::splat(words.g),
            h: W::splat(words.h),
        }
    }

    pub(crate) fn sum(self, other: Self) -> Self
        ensures { (l : ℕ) → l < W.lanes → lane_of (W.lane l) result ≡ plus (lane_of (W.lane l) self) (lane_of (W.lane l) other) }
    {
        Words {
            a: self.a.sum(other.a),
            b: self.b.sum(other.b),
            c: self.c.sum(other.c),
            d: self.d.sum(other.d),
            e: self.e.sum(other.e),
            f: self.f.sum(other.f),
            g: self.g.sum(other.g),
            h: self.h.sum(other.h),
        }
    }
}

impl Words<u32> {
    // The first 32 bits of the fractional parts of the square roots of the first 8 primes.
    pub(crate) const FIRST: Self = Words {
        a: 0x6a09e667,
        b: 0xbb67ae85,
        c: 0x3c6ef372,
        d: 0xa54ff53a,
        e: 0x510e527f,
        f: 0x9b05688c,
        g: 0x1f83d9ab,
        h: 0x5be0cd19,
    };

    pub(crate) fn to_bytes(self) -> [u8; 32]
        ensures { result ≡ output self }
    {
        let words = [
            self.a, self.b, self.c, self.d, self.e, self.f, self.g, self.h,
        ];
        array::from_fn(
            |i: usize| -> u8
                requires { i < 32 }
                ensures { result ≡ slice_index (bytes32 (slice_index words (i / 4))) (i % 4) }
            { words[i / 4].to_be_bytes()[i % 4] },
        )
    }
}

impl Words<u32x4> {
    pub(crate) fn lane(self, l: usize) -> Words<u32>
        requires { l < 4 }
        ensures { result ≡ lane_of (λ w. slice_index w l) self }
    {
        Words {
            a: self.a.to_array()[l],
            b: self.b.to_array()[l],
            c: self.c.to_array()[l],
            d: self.d.to_array()[l],
            e: self.e.to_array()[l],
            f: self.f.to_array()[l],
            g: self.g.to_array()[l],
            h: self.h.to_array()[l],
        }
    }
}
