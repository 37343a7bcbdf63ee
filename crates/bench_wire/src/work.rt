// The work that is measured: reading a message, and writing it again.
use std::alloc::{AllocError, Global};
use wire::{Message, read};
use wire_write::write;

// A certificate with a name of 16 bytes.
pub(crate) fn certificate(heap: Global) -> Result<Vec<u8>, AllocError> {
    let mut out = Vec::new(heap);
    out.extend_from_slice(&[1, 3, 16])?;
    out.extend(0..128u8)?;
    Ok(out)
}

// A revocation list with serials 0, 1, 2 and so on. The program of tests puts one together too: two programs share no library, and
// these lines are no reason for one.
pub(crate) fn revocation_list(heap: Global, count: u16) -> Result<Vec<u8>, AllocError> {
    let mut out = Vec::new(heap);
    out.extend_from_slice(&[4, 1, 0, 0, 0, 0, 0, 0, 0, 9])?;
    out.extend_from_slice(&count.to_be_bytes())?;
    // The number is what is written.
    for n in 0..u64::from(count) {
        out.extend_from_slice(&n.to_be_bytes())?;
    }
    out.extend_from_slice(&[7; 64])?;
    Ok(out)
}

// How many bytes were read, of those that came to a message.
pub(crate) fn read_all(s: &[u8], times: u64) -> u64 {
    let mut bytes = 0u64;
    for _ in 0..times {
        if let Ok(Message::Certificate(_) | Message::RevocationList(_)) = read(s) {
            bytes = bytes.saturating_add(s.len() as u64);
        }
    }
    bytes
}

// How many bytes were written of the message that the bytes are.
pub(crate) fn write_all(heap: Global, s: &[u8], times: u64) -> u64 {
    let Ok(message) = read(s) else {
        return 0;
    };
    let mut bytes = 0u64;
    let mut out = Vec::new(heap);
    for _ in 0..times {
        out.clear();
        if write(message, &mut out).is_ok() {
            bytes = bytes.saturating_add(out.len() as u64);
        }
    }
    bytes
}
