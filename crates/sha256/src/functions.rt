// The standard's functions of words, in each lane, but for the choice of bits; each sigma has a name there, and so it has here.
ghost use Rattle.std.specs.Prelude.{◌≡◌, ℕ, ◌<◌};
ghost use Rattle.sha256.specs.Standard.{MAJ, BSIG0, BSIG1, SSIG0, SSIG1};

use crate::word::Word;

pub(crate) fn majority<W: Word>(x: W, y: W, z: W) -> W
    ensures { (l : ℕ) → l < W.lanes → W.lane l result ≡ MAJ (W.lane l x) (W.lane l y) (W.lane l z) }
{
    x.and(y).xor(x.and(z)).xor(y.and(z))
}

pub(crate) fn big_sigma_0<W: Word>(x: W) -> W
    ensures { (l : ℕ) → l < W.lanes → W.lane l result ≡ BSIG0 (W.lane l x) }
{
    x.rotated(2).xor(x.rotated(13)).xor(x.rotated(22))
}

pub(crate) fn big_sigma_1<W: Word>(x: W) -> W
    ensures { (l : ℕ) → l < W.lanes → W.lane l result ≡ BSIG1 (W.lane l x) }
{
    x.rotated(6).xor(x.rotated(11)).xor(x.rotated(25))
}

pub(crate) fn small_sigma_0<W: Word>(x: W) -> W
    ensures { (l : ℕ) → l < W.lanes → W.lane l result ≡ SSIG0 (W.lane l x) }
{
    x.rotated(7).xor(x.rotated(18)).xor(x.shifted(3))
}

pub(crate) fn small_sigma_1<W: Word>(x: W) -> W
    ensures { (l : ℕ) → l < W.lanes → W.lane l result ≡ SSIG1 (W.lane l x) }
{
    x.rotated(17).xor(x.rotated(19)).xor(x.shifted(10))
}
