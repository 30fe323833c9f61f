//! Reading a message from its words.

ghost use Rattle.std.specs.Prelude.{◌≡◌, IfOk};
ghost use Rattle.line_text.specs.Lists.{words};
ghost use Rattle.line_text.specs.Reading.{texts, to_read, entry, payload, propose, propose_ack, commit, consensus, consensus_ack, recover, recover_ack, promises, by_form, said};

use crate::fault::NotUnderstood;
use crate::promises::{Detached, Pairs};
use crate::rest::Rest;
use line_format::message::WORDS;
use line_format::{Field, Message, Promises};
use schedule::{Change, ControllerSet};
use std::alloc::{AllocError, Global};
use text_forms::Form;

/// The words of a line: what stands between its spaces.
pub fn words<'a>(heap: Global, line: &'a str) -> Result<Vec<&'a str>, AllocError>
    ensures { IfOk result (λ given. texts given.items ≡ words line.now) }
{
    line.split(' ')
        .filter(|word| !word.is_empty())
        .collect(heap)
}

/// The fields that MPayload and MPropose begin with.
const ENTRY: [Field; 8] = [
    Field::Sender,
    Field::Id,
    Field::Department,
    Field::Kind,
    Field::Hour,
    Field::Slot,
    Field::Value,
    Field::Set,
];

/// What the numbers of these fields say: the sender, the id, the change and its set.
fn entry(numbers: [u32; 8]) -> (u32, u32, Change, ControllerSet)
    ensures { result ≡ entry numbers }
{
    let [sender, id, department, kind, hour, slot, value, bits] = numbers;
    let change = Change {
        department,
        kind,
        hour,
        slot,
        value,
    };
    (sender, id, change, ControllerSet { bits })
}

fn payload(rest: Rest) -> Result<Message, NotUnderstood>
    ensures { result ≡ payload (to_read rest.entry) }
{
    let (sender, id, change, set) = entry(rest.all(&ENTRY)?);
    Ok(Message::MPayload {
        sender,
        id,
        change,
        set,
    })
}

fn propose(mut rest: Rest) -> Result<Message, NotUnderstood>
    ensures { result ≡ propose (to_read rest.entry) }
{
    let (sender, id, change, set) = entry(rest.numbers(&ENTRY)?);
    let timestamp = rest.number(Field::Timestamp)?;
    rest.end()?;
    Ok(Message::MPropose {
        sender,
        id,
        change,
        set,
        timestamp,
    })
}

fn propose_ack(rest: Rest) -> Result<Message, NotUnderstood>
    ensures { result ≡ propose_ack (to_read rest.entry) }
{
    let [sender, id, timestamp] = rest.all(&[Field::Sender, Field::Id, Field::Timestamp])?;
    Ok(Message::MProposeAck {
        sender,
        id,
        timestamp,
    })
}

fn commit(rest: Rest) -> Result<Message, NotUnderstood>
    ensures { result ≡ commit (to_read rest.entry) }
{
    let [sender, id, timestamp] = rest.all(&[Field::Sender, Field::Id, Field::Timestamp])?;
    Ok(Message::MCommit {
        sender,
        id,
        timestamp,
    })
}

fn consensus(rest: Rest) -> Result<Message, NotUnderstood>
    ensures { result ≡ consensus (to_read rest.entry) }
{
    let [sender, id, timestamp, ballot] = rest.all(&[
        Field::Sender,
        Field::Id,
        Field::Timestamp,
        Field::Ballot,
    ])?;
    Ok(Message::MConsensus {
        sender,
        id,
        timestamp,
        ballot,
    })
}

fn consensus_ack(rest: Rest) -> Result<Message, NotUnderstood>
    ensures { result ≡ consensus_ack (to_read rest.entry) }
{
    let [sender, id, ballot] = rest.all(&[Field::Sender, Field::Id, Field::Ballot])?;
    Ok(Message::MConsensusAck { sender, id, ballot })
}

fn recover(rest: Rest) -> Result<Message, NotUnderstood>
    ensures { result ≡ recover (to_read rest.entry) }
{
    let [sender, id, ballot] = rest.all(&[Field::Sender, Field::Id, Field::Ballot])?;
    Ok(Message::MRec { sender, id, ballot })
}

fn recover_ack(rest: Rest) -> Result<Message, NotUnderstood>
    ensures { result ≡ recover_ack (to_read rest.entry) }
{
    let [sender, id, timestamp, phase, accepted, ballot] = rest.all(&[
        Field::Sender,
        Field::Id,
        Field::Timestamp,
        Field::Phase,
        Field::Accepted,
        Field::Ballot,
    ])?;
    Ok(Message::MRecAck {
        sender,
        id,
        timestamp,
        phase,
        accepted,
        ballot,
    })
}

#[tactic(auto, unfolding(crate::specs::Promises::no_words))]
fn promises(mut rest: Rest) -> Result<Message, NotUnderstood>
    ensures { result ≡ promises (to_read rest.entry) }
{
    let sender = rest.number(Field::Sender)?;
    let detached = rest
        .list(Field::Detached, Detached { words: [0; WORDS] })?
        .words;
    let Pairs { count, pairs } = rest.list(Field::Pairs, Pairs::none())?;
    rest.end()?;
    Ok(Message::MPromises {
        sender,
        promises: Promises {
            detached,
            count,
            pairs,
        },
    })
}

/// The message of a form.
fn message(form: Form, rest: Rest) -> Result<Message, NotUnderstood>
    ensures { result ≡ by_form form (to_read rest.entry) }
{
    match form {
        Form::MPayload => payload(rest),
        Form::MPropose => propose(rest),
        Form::MProposeAck => propose_ack(rest),
        Form::MCommit => commit(rest),
        Form::MConsensus => consensus(rest),
        Form::MConsensusAck => consensus_ack(rest),
        Form::MRec => recover(rest),
        Form::MRecAck => recover_ack(rest),
        Form::MPromises => promises(rest),
    }
}

/// The message that the words of a line say, whatever its numbers.
pub fn read(words: &[&str]) -> Result<Message, NotUnderstood>
    ensures { result ≡ said (texts words.now) }
{
    let Some((name, rest)) = words.split_first() else {
        return Err(NotUnderstood::Name);
    };
    let Ok(form) = name.parse::<Form>() else {
        return Err(NotUnderstood::Name);
    };
    message(form, Rest { words: rest.iter() })
}
