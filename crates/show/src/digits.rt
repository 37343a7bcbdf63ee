// Bytes from hexadecimal digits, two for each.
ghost use Rattle.std.specs.Prelude.{IfOk, MatchOption};
ghost use Rattle.show.specs.Digits.{HexBytes, NoBytes};

use script::byte_from_hex;
use std::alloc::{AllocError, Global};

// The bytes that the digits write, in either case of letters.
pub fn bytes_from_hex(heap: Global, digits: &[u8]) -> Result<Option<Vec<u8>>, AllocError>
    ensures { IfOk result (λ o. MatchOption o (NoBytes digits.now) (λ v. HexBytes digits.now v.items)) }
{
    let (pairs, rest) = digits.as_chunks::<2>();
    if !rest.is_empty() {
        return Ok(None);
    }
    let mut bytes = Vec::new(heap);
    // Two things can be wrong, so that `?` serves only one: digits that are none give no bytes, want of memory is an error.
    for pair in pairs {
        let Some(byte) = byte_from_hex(*pair) else {
            return Ok(None);
        };
        bytes.push(byte)?;
    }
    Ok(Some(bytes))
}
