//! Tries a plan on a service: a line of standard input for each change, a line of standard output for what came of it.
#![tactic(auto)]

mod told;

use plans::request::asked;
use plans::tally::OUTCOMES;
use plans::{Book, Day, Misread, Reply, Tally};
use schedule::change::HOURS;
use std::io;
use std::io::{BufRead, BufReader};
use told::{HourAccount, Told, outcome_name};

fn main(rt: HostRuntime) -> io::Result<()> {
    let mut day = None;
    let lines = BufReader::new(rt.alloc(), rt.stdin())?.lines(rt.alloc());
    for (number, line) in (1..=u64::MAX).zip(lines) {
        match line {
            Ok(text) => take_line(&rt, &mut day, number, text.as_str().trim())?,
            Err(error) if error.kind() == io::ErrorKind::InvalidData => {
                refuse(&rt, number, Misread::NoText)?
            }
            Err(error) => return Err(error),
        }
    }
    match day {
        Some(day) => account(&rt, &day),
        None => println!(rt; "no service was named"),
    }
}

/// Blank lines and remarks are passed over; the first other line names the service, the rest ask something of it.
fn take_line(rt: &HostRuntime, day: &mut Option<Day>, number: u64, line: &str) -> io::Result<()> {
    if line.is_empty() || line.starts_with('#') {
        return Ok(());
    }
    match day {
        None => match line.parse::<Book>() {
            Ok(book) => {
                let tally = Tally::new();
                *day = Some(Day { book, tally });
                Ok(())
            }
            Err(why) => refuse(rt, number, why),
        },
        Some(day) => match asked(line) {
            Ok(request) => reply(rt, number, day.answer(&request)),
            Err(why) => refuse(rt, number, why),
        },
    }
}

// kept: `rt` and `number` go together to three functions, and a struct made for each line, to be taken apart at once, is no plainer.
fn refuse(rt: &HostRuntime, number: u64, why: Misread) -> io::Result<()> {
    println!(rt; "{number}: not understood: {why}")
}

fn reply(rt: &HostRuntime, number: u64, reply: Reply) -> io::Result<()> {
    match reply {
        Reply::Outcome(change, outcome) => {
            let (first, second) = outcome;
            let told = Told { change, outcome };
            println!(rt; "{number}: outcome {first} {second}, {told}")
        }
        Reply::Holds(value) => println!(rt; "{number}: holds {value}"),
    }
}

/// Each hour in use, then how many changes had each outcome.
fn account(rt: &HostRuntime, day: &Day) -> io::Result<()> {
    println!(rt; "\nThe day")?;
    let book = &day.book;
    if !(0..HOURS).any(|hour| book.in_use(hour)) {
        println!(rt; "no hour is in use")?;
    }
    for hour in (0..HOURS).filter(|hour| book.in_use(*hour)) {
        let told = HourAccount { book, hour };
        println!(rt; "{told}")?;
    }
    println!(rt; "\nChanges by outcome")?;
    for outcome in 0..OUTCOMES {
        let count = day.tally.count(outcome);
        if count != 0 {
            let name = outcome_name(outcome);
            println!(rt; "{outcome} {name:<32} {count:>5}")?;
        }
    }
    Ok(())
}
