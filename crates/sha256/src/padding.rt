// The padding at a message's end.
ghost use Rattle.std.specs.Prelude.{◌≡◌, ◌+◌, ◌-◌, ◌≤◌, ◌∷◌, ◌++◌, length, replicate};
ghost use Rattle.sha256.specs.Standard.{bytes64};

use crate::bytes::put;

// The bytes past the last whole block, padded to `N`: one block or two.
pub(crate) fn padded_end<const N: usize>(rest: &[u8], bits: u64) -> [u8; N]
    requires { length rest.now + 9 ≤ N }
    ensures { result ≡ rest.now ++ 0x80 ∷ replicate (N - 9 - length rest.now) 0 ++ bytes64 bits }
{
    let mut tail = [0; N];
    let n = rest.len();
    put(&mut tail, 0, rest);
    tail[n] = 0x80;
    put(&mut tail, N - 8, &bits.to_be_bytes());
    tail
}
