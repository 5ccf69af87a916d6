// Reads a claim and directly after it the proof from standard input, and prints the verdict.
#![tactic(auto)]

mod input;
mod printing;
mod reading;

use printing::{GREATEST_INPUT, print_input};
use reading::read_full;
use report::reports::LONGEST;
use std::io::{self, Write};

fn main(rt: HostRuntime) -> io::Result<()> {
    let mut input = [0u8; GREATEST_INPUT];
    let mut reader = rt.reader();
    let count = read_full(&mut reader, &mut input)?;
    let mut text = [0u8; LONGEST];
    let end = print_input(&input[..count], &mut text);
    io::writer(&rt).write_all(&text[..end])
}
