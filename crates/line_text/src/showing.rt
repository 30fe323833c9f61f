//! A message as text in words.

ghost use Rattle.std.specs.Prelude.{◌≡◌, Some, ◌++◌, string_bytes, OnOk};
ghost use Rattle.line_text.specs.Laws.{ReadsBack, TypedReadsBack};
ghost use Rattle.line_text.specs.Showing.{numbers_text, entry_numbers, fields_text, text};

use crate::fields::{ShownNumber, label};
use crate::promises::{ShownDetached, ShownPairs};
use line_format::{Field, Message};
use schedule::{Change, ControllerSet};
use std::fmt;
use text_forms::Form;

/// Fields, each with its number.
#[derive(Clone, Copy)]
struct Numbers<'a>(&'a [(Field, u32)]);

impl fmt::Display for Numbers<'_> {
    ghost output = { λ numbers. Some (numbers_text numbers.0.now) };

    fn fmt<W: fmt::Write>(&self, f: &mut fmt::Formatter<W>) -> fmt::Result {
        for (field, number) in self.0 {
            let name = label(*field);
            write!(f, " {name}={}", ShownNumber(*field, *number))?;
        }
        Ok(())
    }
}

/// What MPayload and MPropose have in common.
fn entry(sender: u32, id: u32, change: &Change, set: &ControllerSet) -> [(Field, u32); 8]
    ensures { result ≡ entry_numbers sender id change.now set.now.bits }
{
    [
        (Field::Sender, sender),
        (Field::Id, id),
        (Field::Department, change.department),
        (Field::Kind, change.kind),
        (Field::Hour, change.hour),
        (Field::Slot, change.slot),
        (Field::Value, change.value),
        (Field::Set, set.bits),
    ]
}

/// A message's fields.
#[derive(Clone, Copy)]
struct Fields<'a>(&'a Message);

impl fmt::Display for Fields<'_> {
    ghost output = { λ fields. Some (fields_text fields.0.now) };

    // kept: one arm of one row of fields for each of nine messages, longer than other functions.
    fn fmt<W: fmt::Write>(&self, f: &mut fmt::Formatter<W>) -> fmt::Result {
        match self.0 {
            Message::MPayload {
                sender,
                id,
                change,
                set,
            } => {
                let numbers = entry(*sender, *id, change, set);
                write!(f, "{}", Numbers(&numbers))
            }
            Message::MPropose {
                sender,
                id,
                change,
                set,
                timestamp,
            } => {
                let numbers = entry(*sender, *id, change, set);
                let last = [(Field::Timestamp, *timestamp)];
                write!(f, "{}{}", Numbers(&numbers), Numbers(&last))
            }
            Message::MProposeAck {
                sender,
                id,
                timestamp,
            }
            | Message::MCommit {
                sender,
                id,
                timestamp,
            } => {
                let numbers = [
                    (Field::Sender, *sender),
                    (Field::Id, *id),
                    (Field::Timestamp, *timestamp),
                ];
                write!(f, "{}", Numbers(&numbers))
            }
            Message::MConsensus {
                sender,
                id,
                timestamp,
                ballot,
            } => {
                let numbers = [
                    (Field::Sender, *sender),
                    (Field::Id, *id),
                    (Field::Timestamp, *timestamp),
                    (Field::Ballot, *ballot),
                ];
                write!(f, "{}", Numbers(&numbers))
            }
            Message::MConsensusAck { sender, id, ballot } | Message::MRec { sender, id, ballot } =>
                {
                    let numbers = [
                        (Field::Sender, *sender),
                        (Field::Id, *id),
                        (Field::Ballot, *ballot),
                    ];
                    write!(f, "{}", Numbers(&numbers))
                }
            Message::MRecAck {
                sender,
                id,
                timestamp,
                phase,
                accepted,
                ballot,
            } => {
                let numbers = [
                    (Field::Sender, *sender),
                    (Field::Id, *id),
                    (Field::Timestamp, *timestamp),
                    (Field::Phase, *phase),
                    (Field::Accepted, *accepted),
                    (Field::Ballot, *ballot),
                ];
                write!(f, "{}", Numbers(&numbers))
            }
            Message::MPromises { sender, promises } => {
                let first = [(Field::Sender, *sender)];
                let detached = label(Field::Detached);
                let pairs = label(Field::Pairs);
                write!(
                    f,
                    "{} {detached}={} {pairs}={}",
                    Numbers(&first),
                    ShownDetached(&promises.detached),
                    ShownPairs(promises)
                )
            }
        }
    }
}

/// A message in words.
#[derive(Clone, Copy)]
pub struct InWords<'a>(pub &'a Message);

impl fmt::Display for InWords<'_> {
    ghost output = { λ shown. Some (text shown.0.now) };

    fn fmt<W: fmt::Write>(&self, f: &mut fmt::Formatter<W>) -> fmt::Result {
        write!(f, "{}{}", Form::from(self.0), Fields(self.0))
    }
}

/// Adds a message in words to a text. With it stands the law that what is shown reads back.
pub fn show(message: &Message, out: &mut String) -> fmt::Result
    ensures shown { OnOk result (string_bytes out.new ≡ string_bytes out.old ++ text message.now) }
    ensures back { ReadsBack }
    ensures typed { TypedReadsBack }
{
    write!(out, "{}", InWords(message))?;
    Ok(())
}
