// Messages of the worst sizes, put together byte by byte.
use std::alloc::{AllocError, Global};
use std::iter::repeat_n;

// A certificate whose name has 64 bytes.
pub(crate) fn longest_name(heap: Global) -> Result<Vec<u8>, AllocError> {
    let mut out = Vec::new(heap);
    out.extend_from_slice(&[1, 64, 64])?;
    out.extend(repeat_n(b'a', 64))?;
    out.extend(repeat_n(7, 112))?;
    Ok(out)
}

// A revocation list with serials 0, 1, 2 and so on.
pub(crate) fn most_serials(heap: Global, count: u16) -> Result<Vec<u8>, AllocError> {
    let mut out = Vec::new(heap);
    out.extend_from_slice(&[4, 1, 0, 0, 0, 0, 0, 0, 0, 0])?;
    out.extend_from_slice(&count.to_be_bytes())?;
    // The number is what is written.
    for n in 0..u64::from(count) {
        out.extend_from_slice(&n.to_be_bytes())?;
    }
    out.extend_from_slice(&[7; 64])?;
    Ok(out)
}

// What convicts a log, with the digests of a head of 65,536 entries, or as many as `count` says.
pub(crate) fn most_digests(heap: Global, count: u32) -> Result<Vec<u8>, AllocError> {
    let mut out = Vec::new(heap);
    out.extend_from_slice(&[29, 3, 3, 1, 0, 0, 0, 0, 0, 0, 0, 0])?;
    out.extend_from_slice(&65536u64.to_be_bytes())?;
    out.extend_from_slice(&[7; 96])?;
    out.extend(repeat_n(9, 32 * count as usize))?;
    Ok(out)
}
