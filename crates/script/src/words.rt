// A line cut into words; the words are parts of the line.
ghost use Rattle.std.specs.Prelude.{◌≡◌, ℕ, ◌<◌, ◌≤◌, false, map, length, IfOk, ◌≢◌, slice_index};
ghost use Rattle.script.specs.Words.{blank, spoken, words};

use std::alloc::{AllocError, Global};

fn is_blank(b: u8) -> bool
    ensures { result ≡ blank b }
{
    matches!(b, b' ' | b'\t' | b'\r')
}

// The line up to its comment.
fn without_comment(line: &[u8]) -> &[u8]
    ensures { result.now ≡ spoken line.now }
{
    line.split(|b| *b == b'#').next().unwrap_or(line)
}

// How many bytes at the front are blank, or are not.
fn run(line: &[u8], blanks: bool) -> usize
    ensures within { result ≤ length line.now }
    ensures all { (k : ℕ) → k < result → blank (slice_index line.now k) ≡ blanks }
    ensures stops { result < length line.now → blank (slice_index line.now result) ≢ blanks }
{
    let other = line.iter().position(|b| is_blank(*b) != blanks);
    other.unwrap_or(line.len())
}

// The line behind its first blanks.
fn skip_blanks(line: &[u8]) -> &[u8]
    ensures same { words result.now ≡ words line.now }
    ensures first { 0 < length result.now → blank (slice_index result.now 0) ≡ false }
    ensures shorter { length result.now ≤ length line.now }
{
    &line[run(line, true)..]
}

// The words of the line, in their order. Blanks are skipped by runs: a split at each of them takes longer.
pub(crate) fn split_words<'a>(heap: Global, line: &'a [u8]) -> Result<Vec<&'a [u8]>, AllocError>
    ensures { IfOk result (λ v. map (λ w. w.now) v.items ≡ words (spoken line.now)) }
{
    let mut found = Vec::new(heap);
    let mut rest = skip_blanks(without_comment(line));
    while !rest.is_empty() {
        let (word, after) = rest.split_at(run(rest, false));
        found.push(word)?;
        rest = skip_blanks(after);
    }
    Ok(found)
}
