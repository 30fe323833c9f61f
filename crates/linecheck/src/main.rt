//! linecheck: the line format's bench tool. Messages in hexadecimal or in words in, one a line;
//! what each says, or why it is refused, out.
#![tactic(auto)]

mod account;
mod bench;
mod figures;

use anyhow::anyhow;
use bench::{Bench, passed_over};
use figures::figures;
use schedule::Figures;
use std::alloc::Global;
use std::io;
use std::io::{BufRead, BufReader, BufWriter, Write};

/// The figures on the first line; where there are none, that is said, and the run ends.
fn first(heap: Global, line: &str, out: &mut impl Write) -> anyhow::Result<Figures> {
    match figures(heap, line) {
        Ok(given) => Ok(given),
        Err(fault) => {
            writeln!(out, "1: {fault}")?;
            Err(anyhow!("no group figures"))
        }
    }
}

fn main(rt: HostRuntime) -> anyhow::Result<()> {
    let heap = rt.alloc();
    let mut out = BufWriter::new(heap, rt.stdout())?;
    let mut lines = BufReader::new(heap, rt.stdin())?.lines(heap);
    let opening = match lines.next() {
        Some(line) => line?,
        None => String::new(heap),
    };
    let mut bench = Bench::new(first(heap, opening.as_str(), &mut out)?);
    let mut text = String::new(heap);
    for (number, next) in (2..=u64::MAX).zip(lines) {
        text.clear();
        match next {
            Ok(line) if passed_over(line.as_str()) => continue,
            Ok(line) => bench.answer(heap, line.as_str(), &mut text)?,
            Err(error) if error.kind() == io::ErrorKind::InvalidData => bench.no_text(&mut text)?,
            Err(error) => return Err(error.into()),
        }
        writeln!(out, "{number}: {text}")?;
    }
    let account = bench.account();
    writeln!(out, "{account}")?;
    out.flush()?;
    Ok(())
}
