// Plays a script from standard input, line by line, and prints an answer to each; or shows a message in words.
#![tactic(auto)]

mod help;

use crate::help::HELP;
use anyhow::{Context, anyhow};
use play::Harbour;
use script::read_line;
use show::{bytes_from_hex, message_in_words, refusal_in_words};
use std::env;
use std::io::{BufRead, BufReader};
use wire::read;

// Answers one line; one that is refused changes nothing, and one without a command is answered by nothing.
fn play_line(
    rt: &HostRuntime,
    harbour: &mut Harbour,
    number: u64,
    line: &[u8],
) -> anyhow::Result<()> {
    match read_line(rt.alloc(), line) {
        Ok(None) => {}
        Ok(Some(command)) => match harbour.perform(&command) {
            Ok(answer) => println!(rt; "{number}: {answer}")?,
            Err(refusal) => println!(rt; "{number}: {}", refusal.in_words())?,
        },
        Err(fault) => println!(rt; "{number}: {fault}")?,
    }
    Ok(())
}

fn play_script(rt: &HostRuntime) -> anyhow::Result<()> {
    let mut harbour = Harbour::new(rt.alloc());
    let lines = BufReader::new(rt.alloc(), rt.stdin())?.split(rt.alloc(), b'\n');
    for (number, line) in (1..=u64::MAX).zip(lines) {
        play_line(rt, &mut harbour, number, line?.as_slice())?;
    }
    Ok(())
}

// Prints in words the message that the digits write, or why it is refused.
fn show_message(rt: &HostRuntime, digits: &[u8]) -> anyhow::Result<()> {
    let heap = rt.alloc();
    let bytes = bytes_from_hex(heap, digits)?.context(
        "show takes a message in hexadecimal digits, two for each byte",
    )?;
    let text = match read(bytes.as_slice()) {
        Ok(message) => message_in_words(heap, &message)?,
        Err(refusal) => refusal_in_words(heap, refusal)?,
    };
    println!(rt; "{text}")?;
    Ok(())
}

fn run(rt: &HostRuntime) -> anyhow::Result<()> {
    let mut args = env::args(rt)?;
    let _program = args.next();
    let Some(word) = args.next() else {
        return play_script(rt);
    };
    match word.as_str() {
        "--help" => {
            rt.print(HELP)?;
            Ok(())
        }
        "show" => {
            let digits = args
                .next()
                .context("show takes a message in hexadecimal digits")?;
            show_message(rt, digits.as_bytes())
        }
        _ => Err(anyhow!("harbour takes a script on its standard input, show HEX, or --help")),
    }
}

fn main(rt: HostRuntime) -> anyhow::Result<()> {
    run(&rt)
}
