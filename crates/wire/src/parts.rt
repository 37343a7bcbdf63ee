// Rows that are handed on as parts of what came: digests, serials and certificates.
ghost use Rattle.std.specs.Prelude.{◌≡◌, ◌<◌, ◌≤◌, [], ◌++◌, length, MatchBool, MatchOption, slice_index, slice_index_or};
ghost use Rattle.std.specs.Iterator.{YieldsFirst, YieldsFirstBy, item_count};
ghost use Rattle.wire_theory.specs.Bytes.{numbers, row_of};
ghost use Rattle.wire_theory.specs.Entries.{Begins};
ghost use Rattle.wire_theory.specs.Messages.{FitsCertificate, Rising, certificate_bytes};
ghost use Rattle.wire_theory.specs.Shapes.{EntriesShape};
ghost use Rattle.wire.specs.Reading.{Member, RisingRow};
ghost use Rattle.wire.specs.Sound.{Whole};
ghost use Rattle.wire.specs.Views.{certificate_of, digests_left, digests_of, serials_left, serials_of};

use crate::certificate::Certificate;
use crate::field::number_in;
use crate::fields::Fields;
use merkle::Digest;

// The pieces of N bytes each; bytes that are left over are in none.
fn pieces<const N: usize>(bytes: &[u8]) -> &[[u8; N]]
    requires { 0 < N }
    ensures { result.now ≡ row_of N bytes.now }
{
    let (pieces, _) = bytes.as_chunks();
    pieces
}

fn rising(bytes: &[u8]) -> bool
    ensures { MatchBool result (RisingRow bytes.now) (Whole 8 bytes.now → Rising (numbers 8 bytes.now) → ⊥) }
{
    let serials = Serials { bytes };
    bytes.len() % 8 == 0 && serials.iter().is_sorted_by(|before, after| before < after)
}

// Digests, one after the other, in any bytes: whether they are whole is asked where it matters. Serials are a type of their own, as
// both are public.
#[derive(Clone, Copy)]
pub struct Digests<'a> {
    pub bytes: &'a [u8],
}

impl<'a> Digests<'a> {
    pub fn len(&self) -> usize
        ensures { result ≡ length (digests_of self.now) }
    {
        pieces::<32>(self.bytes).len()
    }

    pub fn get(&self, i: usize) -> Option<Digest>
        ensures { MatchOption result (length (digests_of self.now) ≤ i) (λ d. (i < length (digests_of self.now)) × (d.bytes ≡ slice_index_or (digests_of self.now) i [])) }
    {
        let bytes = pieces::<32>(self.bytes).get(i)?;
        Some(Digest { bytes: *bytes })
    }

    pub fn iter(&self) -> EachDigest<'a>
        ensures { digests_left result ≡ digests_of self.now }
    {
        EachDigest {
            rest: pieces::<32>(self.bytes),
        }
    }
}

// Goes over digests.
#[derive(Clone, Copy)]
pub struct EachDigest<'a> {
    rest: &'a [[u8; 32]],
}

impl<'a> Iterator for EachDigest<'a> {
    type Item = Digest;

    ghost next_gives = { YieldsFirstBy (λ d. d.bytes) digests_left };

    ghost remaining = { item_count digests_left };

    fn next(&mut self) -> Option<Digest> {
        let (first, rest) = self.rest.split_first()?;
        self.rest = rest;
        Some(Digest { bytes: *first })
    }
}

// Serials, one after the other.
#[derive(Clone, Copy)]
pub struct Serials<'a> {
    pub bytes: &'a [u8],
}

impl<'a> Serials<'a> {
    pub fn len(&self) -> usize
        ensures { result ≡ length (serials_of self.now) }
    {
        pieces::<8>(self.bytes).len()
    }

    pub fn get(&self, i: usize) -> Option<u64>
        ensures { MatchOption result (length (serials_of self.now) ≤ i) (λ n. (i < length (serials_of self.now)) × (n ≡ slice_index (serials_of self.now) i)) }
    {
        let bytes = pieces::<8>(self.bytes).get(i)?;
        Some(number_in(bytes))
    }

    pub fn iter(&self) -> EachSerial<'a>
        ensures { serials_left result ≡ serials_of self.now }
    {
        EachSerial {
            rest: pieces::<8>(self.bytes),
        }
    }

    // Is each serial above the one before it, and no byte left over?
    pub fn are_rising(&self) -> bool
        ensures { MatchBool result (RisingRow self.now.bytes.now) (Whole 8 self.now.bytes.now → Rising (serials_of self.now) → ⊥) }
    {
        rising(self.bytes)
    }

    // Is the serial among them? They are halved, since they rise. By hand: the library's search goes on where it has met the serial, and
    // of rows that don't rise it finds fewer.
    pub fn contains(&self, serial: u64) -> bool
        ensures { MatchBool result (Member serial (serials_of self.now)) (Rising (serials_of self.now) → Member serial (serials_of self.now) → ⊥) }
    {
        let serials = pieces::<8>(self.bytes);
        let mut low = 0;
        let mut high = serials.len();
        while low < high {
            let middle = low + (high - low) / 2;
            let here = number_in(&serials[middle]);
            if here == serial {
                return true;
            }
            if here < serial {
                low = middle + 1;
            } else {
                high = middle;
            }
        }
        false
    }
}

// Goes over serials.
#[derive(Clone, Copy)]
pub struct EachSerial<'a> {
    rest: &'a [[u8; 8]],
}

impl<'a> Iterator for EachSerial<'a> {
    type Item = u64;

    ghost next_gives = { YieldsFirst serials_left };

    ghost remaining = { item_count serials_left };

    fn next(&mut self) -> Option<u64> {
        let (first, rest) = self.rest.split_first()?;
        self.rest = rest;
        Some(number_in(first))
    }
}

// Certificates, one after the other.
#[derive(Clone, Copy)]
pub struct Certificates<'a> {
    pub bytes: &'a [u8],
}

impl<'a> Certificates<'a> {
    // Are the bytes certificates to the end?
    pub fn are_whole(&self) -> bool
        ensures { MatchBool result (EntriesShape self.now.bytes.now) (EntriesShape self.now.bytes.now → ⊥) }
    {
        all_certificates(Fields::of(self.bytes)).is_some()
    }

    // The first, and those behind it.
    pub fn split_first(&self) -> Option<(Certificate<'a>, Certificates<'a>)>
        ensures { MatchOption result (Begins self.now.bytes.now → ⊥) (λ p. (self.now.bytes.now ≡ certificate_bytes (certificate_of p.0) ++ p.1.bytes.now) × FitsCertificate (certificate_of p.0)) }
    {
        let mut fields = Fields::of(self.bytes);
        let first = fields.certificate()?;
        let bytes = fields.rest();
        Some((first, Certificates { bytes }))
    }
}

// Some where the bytes are certificates to the end. What is left is taken apart until nothing is; no place is counted.
fn all_certificates(mut fields: Fields) -> Option<()>
    ensures { MatchOption result (EntriesShape fields.entry → ⊥) (λ _. EntriesShape fields.entry) }
{
    while !fields.is_empty() {
        fields.certificate()?;
    }
    Some(())
}
