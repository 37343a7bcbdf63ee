// Reads a line: its first word names the command, the others are what it takes.
ghost use Rattle.std.specs.Prelude.{◌∷◌, codes, MatchResult};
ghost use Rattle.script.specs.Grammar.{FaultsAreFaults, SaysOrWrong, Hexes, BadNumber, BadDigest, Line, texts};
ghost use Rattle.script.specs.Texts.{Decimal};
ghost use Rattle.script.specs.Words.{spoken, words};

use crate::command::{Command, Fault, Verb};
use crate::hex::from_hex;
use crate::number::decimal;
use crate::words::split_words;
use merkle::Digest;
use std::alloc::Global;

// The numbers that two words write.
fn numbers<'a>(first: &'a [u8], second: &'a [u8]) -> Result<(u64, u64), Fault<'a>>
    ensures { MatchResult result (λ p. Decimal first.now p.0 × Decimal second.now p.1) (BadNumber first.now second.now) }
{
    let m = decimal(first).ok_or(Fault::NotANumber(first))?;
    let n = decimal(second).ok_or(Fault::NotANumber(second))?;
    Ok((m, n))
}

// The digests that words write.
fn digests<'a>(heap: Global, words: &[&'a [u8]]) -> Result<Vec<Digest>, Fault<'a>>
    ensures { MatchResult result (λ v. Hexes (texts words.now) v.items) (BadDigest (texts words.now)) }
{
    let mut read = Vec::new(heap);
    for word in words {
        let digest = from_hex(word).ok_or(Fault::NotADigest(word))?;
        read.push(digest)?;
    }
    Ok(read)
}

fn enter<'a>(args: &[&'a [u8]]) -> Result<Command<'a>, Fault<'a>>
    ensures { SaysOrWrong (codes "enter" ∷ texts args.now) result }
{
    let [text] = args else {
        return Err(Fault::Takes("enter TEXT"));
    };
    Ok(Command::Enter(text))
}

fn top<'a>(args: &[&'a [u8]]) -> Result<Command<'a>, Fault<'a>>
    ensures { SaysOrWrong (codes "top" ∷ texts args.now) result }
{
    match args {
        [] => Ok(Command::Top),
        [count] => {
            let count = decimal(count).ok_or(Fault::NotANumber(count))?;
            Ok(Command::TopOf(count))
        }
        _ => Err(Fault::Takes("top, or top COUNT")),
    }
}

// Like `proof` but for the names; one function over both would be longer.
fn way<'a>(args: &[&'a [u8]]) -> Result<Command<'a>, Fault<'a>>
    ensures { SaysOrWrong (codes "way" ∷ texts args.now) result }
{
    let [place, count] = args else {
        return Err(Fault::Takes("way PLACE COUNT"));
    };
    let (place, count) = numbers(place, count)?;
    Ok(Command::Way { place, count })
}

fn proof<'a>(args: &[&'a [u8]]) -> Result<Command<'a>, Fault<'a>>
    ensures { SaysOrWrong (codes "proof" ∷ texts args.now) result }
{
    let [from, to] = args else {
        return Err(Fault::Takes("proof FROM TO"));
    };
    let (from, to) = numbers(from, to)?;
    Ok(Command::Proof { from, to })
}

// Like `goes_on` but for the names and the text.
fn leads<'a>(heap: Global, args: &[&'a [u8]]) -> Result<Command<'a>, Fault<'a>>
    ensures { SaysOrWrong (codes "leads" ∷ texts args.now) result }
{
    let [place, count, text, path @ ..] = args else {
        return Err(Fault::Takes("leads PLACE COUNT TEXT DIGEST.."));
    };
    let (place, count) = numbers(place, count)?;
    let path = digests(heap, path)?;
    Ok(Command::Leads {
        place,
        count,
        text,
        path,
    })
}

fn goes_on<'a>(heap: Global, args: &[&'a [u8]]) -> Result<Command<'a>, Fault<'a>>
    ensures { SaysOrWrong (codes "goes-on" ∷ texts args.now) result }
{
    let [from, to, proof @ ..] = args else {
        return Err(Fault::Takes("goes-on FROM TO DIGEST.."));
    };
    let (from, to) = numbers(from, to)?;
    let proof = digests(heap, proof)?;
    Ok(Command::GoesOn { from, to, proof })
}

fn command<'a>(heap: Global, word: &'a [u8], args: &[&'a [u8]]) -> Result<Command<'a>, Fault<'a>>
    ensures { SaysOrWrong (word.now ∷ texts args.now) result }
{
    match Verb::try_from(word)? {
        Verb::Enter => enter(args),
        Verb::Top => top(args),
        Verb::Way => way(args),
        Verb::Proof => proof(args),
        Verb::Leads => leads(heap, args),
        Verb::GoesOn => goes_on(heap, args),
    }
}

// The command of a line, or nothing where it has no words.
pub fn read_line<'a>(heap: Global, line: &'a [u8]) -> Result<Option<Command<'a>>, Fault<'a>>
    ensures { Line (words (spoken line.now)) result }
{
    match split_words(heap, line)?.as_slice() {
        [] => Ok(None),
        [word, args @ ..] => Ok(Some(command(heap, word, args)?)),
    }
}

// A line that says a command is refused for want of memory alone.
pub fn faults_are_faults()
    ensures { FaultsAreFaults }
{}
