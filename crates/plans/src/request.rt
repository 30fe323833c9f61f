//! What a line of a plan asks for.

ghost use Rattle.std.specs.Prelude.{◌≡◌, ℕ, List, Some};
ghost use Rattle.plans.specs.Lines.{FirstWords, asked_by, found, change_named, place_named};
ghost use Rattle.plans.specs.Reasons.{misread_text};

use crate::words::{department, kind, number};
use schedule::Change;
use std::fmt;

/// What a line asks for.
#[derive(Clone, Copy)]
pub enum Request {
    /// A change, whatever its numbers are.
    Carrying(Change),
    /// What an hour and slot hold.
    // kept: two numbers, since whoever takes them, as `Service::read`, would take a struct of both apart at once.
    Reading(u32, u32),
}

/// Why a line was not understood.
#[derive(Clone, Copy, PartialEq, Eq, Debug)]
pub enum Misread {
    NoService,
    OtherWords,
    NoDepartment,
    NoKind,
    NoHour,
    NoSlot,
    NoValue,
    NoText,
}

/// The change that five words name.
fn change_of(of: &str, to_do: &str, hour: &str, slot: &str, value: &str) -> Result<Change, Misread>
    ensures { result ≡ change_named of.now to_do.now hour.now slot.now value.now }
{
    let department = department(of).ok_or(Misread::NoDepartment)?;
    let kind = kind(to_do).ok_or(Misread::NoKind)?;
    let (hour, slot) = place_of(hour, slot)?;
    let value = number(value).ok_or(Misread::NoValue)?;
    Ok(Change {
        department,
        kind,
        hour,
        slot,
        value,
    })
}

/// The hour and slot that two words name.
fn place_of(hour: &str, slot: &str) -> Result<(u32, u32), Misread>
    ensures { result ≡ place_named hour.now slot.now }
{
    Ok((
        number(hour).ok_or(Misread::NoHour)?,
        number(slot).ok_or(Misread::NoSlot)?,
    ))
}

/// What a line asks for: a reading of three words, or a change of five.
pub fn asked(line: &str) -> Result<Request, Misread>
    ensures { (words : List (List ℕ)) × FirstWords 6 line.now words × (result ≡ asked_by words) }
{
    let mut words = line.split_whitespace().fuse();
    // kept: six calls, since with `array::from_fn` and a closure that calls `next` the goal stays open.
    asked_of([
        words.next(),
        words.next(),
        words.next(),
        words.next(),
        words.next(),
        words.next(),
    ])
}

/// What the first six words ask for, where `None` stands after the last.
fn asked_of(words: [Option<&str>; 6]) -> Result<Request, Misread>
    ensures { result ≡ asked_by (found words.entry) }
{
    match words {
        [Some(word), Some(hour), Some(slot), None, ..] => {
            if word != "read" {
                return Err(Misread::OtherWords);
            }
            let (hour, slot) = place_of(hour, slot)?;
            Ok(Request::Reading(hour, slot))
        }
        [
            Some(of),
            Some(to_do),
            Some(hour),
            Some(slot),
            Some(value),
            None,
        ] => { Ok(Request::Carrying(change_of(of, to_do, hour, slot, value)?)) }
        _ => Err(Misread::OtherWords),
    }
}

/// What is said to whoever wrote the line.
impl fmt::Display for Misread {
    ghost output = { λ why. Some (misread_text why) };

    fn fmt<W: fmt::Write>(&self, f: &mut fmt::Formatter<W>) -> fmt::Result {
        f.write_str(match self {
            Misread::NoService => {
                "no service is named yet: running-order, break-ledger, final-say running-order, final-say break-ledger or final-say final-say running-order"
            }
            Misread::OtherWords => "a line is DEPARTMENT KIND HOUR SLOT VALUE, or read HOUR SLOT",
            Misread::NoDepartment => "the department is sales, programming or a number",
            Misread::NoKind => "the kind is put, clear, replace, claim, yield or a number",
            Misread::NoHour => "the hour is not a number up to 4294967295",
            Misread::NoSlot => "the slot is not a number up to 4294967295",
            Misread::NoValue => "the value is not a number up to 4294967295",
            Misread::NoText => "the line is not text in UTF-8",
        })
    }
}
