// Digests in hexadecimal: 64 digits, written in lower case and read in either.
ghost use Rattle.std.specs.Prelude.{◌≡◌, ◌<◌, ◌≤◌, [], ◌∷◌, Some, MatchOption};
ghost use Rattle.std.specs.Char.{digit_value};
ghost use Rattle.script.specs.Texts as texts;
ghost use Rattle.script.specs.Texts.{HexReadsBack, NoHex, NoPair, Pair, digit_of, hex_of};

use merkle::Digest;
use std::fmt;

// Bytes that print as their hexadecimal digits, in lower case.
#[derive(Clone, Copy)]
pub struct Hex<'a>(pub &'a [u8]);

impl fmt::Display for Hex<'_> {
    ghost output = { λ h. Some (hex_of h.0.now) };

    fn fmt<W: fmt::Write>(&self, f: &mut fmt::Formatter<W>) -> fmt::Result {
        // Digit by digit: a format for each byte takes longer.
        for &b in self.0 {
            f.write_char(digit_char(b / 16))?;
            f.write_char(digit_char(b % 16))?;
        }
        Ok(())
    }
}

// The lower-case digit of a number below 16.
fn digit_char(n: u8) -> char
    requires { n < 16 }
    ensures value { result ≡ digit_of n }
    ensures ascii { result < 128 }
{
    if n < 10 {
        (b'0' + n) as char
    } else {
        (b'a' - 10 + n) as char
    }
}

fn digit(b: u8) -> Option<u8>
    ensures { MatchOption result (16 ≤ digit_value b) (λ v. (v ≡ digit_value b) × (v < 16)) }
{
    // By ranges: `to_digit` takes longer, twice for each byte.
    match b {
        b'0'..=b'9' => Some(b - b'0'),
        b'a'..=b'f' => Some(b - b'a' + 10),
        b'A'..=b'F' => Some(b - b'A' + 10),
        _ => None,
    }
}

// The byte that two hexadecimal digits write.
pub fn byte_from_hex(pair: [u8; 2]) -> Option<u8>
    ensures { MatchOption result (NoPair pair) (λ b. Pair pair (b ∷ []) 0) }
{
    let [high, low] = pair;
    Some(16 * digit(high)? + digit(low)?)
}

// The digest that the word writes, if it is 64 hexadecimal digits.
pub fn from_hex(word: &[u8]) -> Option<Digest>
    ensures { MatchOption result (NoHex word.now) (texts.Hex word.now) }
{
    let (pairs, rest) = word.as_chunks::<2>();
    if pairs.len() != 32 || !rest.is_empty() {
        return None;
    }
    let mut bytes = [0u8; 32];
    for (i, pair) in pairs.iter().enumerate() {
        bytes[i] = byte_from_hex(*pair)?;
    }
    Some(Digest { bytes })
}

// What `Hex` prints of a digest, `from_hex` reads as the same digest.
pub fn hex_reads_back()
    ensures { HexReadsBack }
{}
