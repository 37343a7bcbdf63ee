// What the rounds work on: a word, or one in each of four lanes.
ghost use Rattle.std.specs.Prelude.{◌≡◌, ℕ, ◌<◌, slice_index};
ghost use Rattle.sha256.specs.Standard.{◌⊞◌, ◌AND◌, ◌XOR◌, SHR, ROTR, CH};

use std::simd::prelude::*;

// Each operation is the standard's, in every lane.
pub trait Word: Copy {
    ghost lanes: { ℕ };

    // The word in a lane.
    ghost lane: { ℕ → Self → ℕ };

    // `word` in each lane.
    fn splat(word: u32) -> Self
        ensures { (l : ℕ) → l < lanes → lane l result ≡ word };

    fn sum(self, other: Self) -> Self
        ensures { (l : ℕ) → l < lanes → lane l result ≡ lane l self ⊞ lane l other };

    fn and(self, other: Self) -> Self
        ensures { (l : ℕ) → l < lanes → lane l result ≡ (lane l self AND lane l other) };

    fn xor(self, other: Self) -> Self
        ensures { (l : ℕ) → l < lanes → lane l result ≡ (lane l self XOR lane l other) };

    // `self` chooses each bit from `y` or `z`.
    fn choose(self, y: Self, z: Self) -> Self
        ensures { (l : ℕ) → l < lanes → lane l result ≡ CH (lane l self) (lane l y) (lane l z) };

    fn shifted(self, n: u32) -> Self
        requires { n < 32 }
        ensures { (l : ℕ) → l < lanes → lane l result ≡ SHR n (lane l self) };

    fn rotated(self, n: u32) -> Self
        requires { (0 < n) × (n < 32) }
        ensures { (l : ℕ) → l < lanes → lane l result ≡ ROTR n (lane l self) };
}

impl Word for u32 {
    ghost lanes = { 1 };

    ghost lane = { λ l x. x };

    fn splat(word: u32) -> u32 {
        word
    }

    fn sum(self, other: u32) -> u32 {
        self.wrapping_add(other)
    }

    fn and(self, other: u32) -> u32 {
        self & other
    }

    fn xor(self, other: u32) -> u32 {
        self ^ other
    }

    // One instruction less than the standard's form.
    fn choose(self, y: u32, z: u32) -> u32 {
        z ^ (self & (y ^ z))
    }

    fn shifted(self, n: u32) -> u32 {
        self >> n
    }

    fn rotated(self, n: u32) -> u32 {
        self.rotate_right(n)
    }
}

impl Word for u32x4 {
    ghost lanes = { 4 };

    ghost lane = { λ l x. slice_index x l };

    fn splat(word: u32) -> u32x4 {
        u32x4::splat(word)
    }

    fn sum(self, other: u32x4) -> u32x4 {
        self + other
    }

    fn and(self, other: u32x4) -> u32x4 {
        self & other
    }

    fn xor(self, other: u32x4) -> u32x4 {
        self ^ other
    }

    // The standard's form takes no instruction more here: one has `!self & z`.
    fn choose(self, y: u32x4, z: u32x4) -> u32x4 {
        (self & y) ^ (!self & z)
    }

    fn shifted(self, n: u32) -> u32x4 {
        self >> u32x4::splat(n)
    }

    fn rotated(self, n: u32) -> u32x4 {
        (self >> u32x4::splat(n)) | (self << u32x4::splat(32 - n))
    }
}
