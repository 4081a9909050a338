//! Plays scripts: carries out one line after the other, and writes each line and its answer.
//!
//! `bench SCRIPT..` plays the files in turn, each from the beginning; `-`, and no word at all, stand
//! for standard input.
#![tactic(auto)]

use desk::Desk;
use std::alloc::Global;
use std::io::{BufRead, BufReader, BufWriter, Read, Write};
use std::{env, fs, io};

mod answer;
mod desk;
mod faults;
mod roles;

/// Plays one script.
fn play<R: Read + Drop, W: Write + Drop>(
    heap: Global,
    script: R,
    out: &mut BufWriter<W>,
) -> io::Result<()> {
    let mut desk = Desk::new(heap)?;
    for line in BufReader::new(heap, script)?.split(heap, b'\n') {
        let line = line?;
        out.write_all(line.as_slice())?;
        out.write_all(b"\n")?;
        if let Some(answer) = desk.answer(line.as_slice())? {
            writeln!(out, "  {answer}")?;
        }
    }
    Ok(())
}

fn main(rt: HostRuntime) -> io::Result<()> {
    let heap = rt.alloc();
    let mut out = BufWriter::new(heap, rt.stdout())?;
    let mut scripts = env::args(&rt)?.skip(1).peekable();
    if scripts.peek().is_none() {
        play(heap, rt.stdin(), &mut out)?;
    }
    for script in scripts {
        if script.as_str() == "-" {
            play(heap, rt.stdin(), &mut out)?;
        } else {
            play(heap, fs::open(&rt, script.as_str())?, &mut out)?;
        }
    }
    out.flush()
}
