//! Writing a message as bytes.

ghost use Rattle.std.specs.Prelude.{◌≡◌, ℕ, ◌+◌, ◌≤◌, true, List, length};
ghost use Rattle.line_format.specs.Fields.{int_bytes, hyper_bytes, pair_bytes, fields};
ghost use Rattle.line_format.specs.Encoding.{entry_bytes, promises_bytes, encode};
ghost use Rattle.line_format.specs.Writing.{HasRoom, Puts, count_fits, writing, Written};

use crate::fault::LineFault;
use crate::message::{Message, PAIRS, Pair, Promises};
use schedule::{Change, ControllerSet, Figures};

/// Every outgoing buffer has at least this many bytes, so that every message fits.
pub const LEAST_BUFFER: usize = 2048;

/// A buffer that is written from the front, and the place after what is written.
#[derive(Drop)]
struct Writer<'a> {
    buffer: &'a mut [u8],
    at: usize,
}

impl Writer<'_> {
    /// Puts bytes at the writer's place.
    fn put_bytes(&mut self, bytes: &[u8])
        requires { HasRoom self.old (length bytes.now) }
        ensures { Puts self.old self.new bytes.now }
    {
        let at = self.at;
        let end = at + bytes.len();
        let buffer = &mut *self.buffer;
        buffer[at..end].copy_from_slice(bytes);
        self.at = end;
    }

    /// Puts fields one after the other.
    fn put_all<F: Put>(&mut self, all: &[F])
        requires { HasRoom self.old (length (fields F.Put.code all.now)) }
        ensures { Puts self.old self.new (fields F.Put.code all.now) }
    {
        for field in all {
            field.put(self);
        }
    }

    /// Puts a message's type, its sender, and a change as it is entered: its id, its fields and its set.
    fn put_entry(&mut self, kind: u32, sender: u32, id: u32, change: &Change, set: &ControllerSet)
        requires { HasRoom self.old 36 }
        ensures { Puts self.old self.new (entry_bytes kind sender id change.now set.now) }
    {
        self.put_all(&[
            kind,
            sender,
            id,
            change.department,
            change.kind,
            change.hour,
            change.slot,
            change.value,
            set.bits,
        ])
    }

    /// Puts the words, the count and the pairs of MPromises.
    fn put_promises(&mut self, promises: &Promises)
        requires { (promises.now.count ≤ 224) × HasRoom self.old 1996 }
        ensures { Puts self.old self.new (promises_bytes promises.now) }
    {
        let (used, _) = promises.pairs.split_at(promises.count as usize);
        self.put_all(&promises.detached);
        self.put_all(&[promises.count]);
        self.put_all(used);
    }

    /// Puts a message, for which there is room.
    // kept: the numbers are the types of the format; longer than other functions, with one arm for each of nine messages.
    fn put_message(&mut self, message: &Message)
        requires { (count_fits message.now ≡ true) × HasRoom self.old 2004 }
        ensures { Puts self.old self.new (encode message.now) }
    {
        match message {
            Message::MPayload {
                sender,
                id,
                change,
                set,
            } => self.put_entry(1, *sender, *id, change, set),
            Message::MPropose {
                sender,
                id,
                change,
                set,
                timestamp,
            } => {
                self.put_entry(2, *sender, *id, change, set);
                self.put_all(&[*timestamp])
            }
            Message::MProposeAck {
                sender,
                id,
                timestamp,
            } => self.put_all(&[3, *sender, *id, *timestamp]),
            Message::MCommit {
                sender,
                id,
                timestamp,
            } => self.put_all(&[4, *sender, *id, *timestamp]),
            Message::MConsensus {
                sender,
                id,
                timestamp,
                ballot,
            } => { self.put_all(&[5, *sender, *id, *timestamp, *ballot]) }
            Message::MConsensusAck { sender, id, ballot } => self.put_all(&[
                6, *sender, *id, *ballot,
            ]),
            Message::MRec { sender, id, ballot } => self.put_all(&[7, *sender, *id, *ballot]),
            Message::MRecAck {
                sender,
                id,
                timestamp,
                phase,
                accepted,
                ballot,
            } => { self.put_all(&[8, *sender, *id, *timestamp, *phase, *accepted, *ballot]) }
            Message::MPromises { sender, promises } => {
                self.put_all(&[9, *sender]);
                self.put_promises(promises)
            }
        }
    }
}

/// A field as it is written: an unsigned int, an unsigned hyper or a pair.
trait Put {
    ghost code: { Self → List ℕ };

    fn put(&self, writer: &mut Writer)
        requires { HasRoom writer.old (length (Self.Put.code self.now)) }
        ensures { Puts writer.old writer.new (Self.Put.code self.now) };
}

// kept: `to_be_bytes` is a method of each type and of no trait, so the two bodies stay one line each.
impl Put for u32 {
    ghost code = { int_bytes };

    fn put(&self, writer: &mut Writer) {
        writer.put_bytes(&self.to_be_bytes())
    }
}

impl Put for u64 {
    ghost code = { hyper_bytes };

    fn put(&self, writer: &mut Writer) {
        writer.put_bytes(&self.to_be_bytes())
    }
}

impl Put for Pair {
    ghost code = { pair_bytes };

    fn put(&self, writer: &mut Writer) {
        self.id.put(writer);
        self.timestamp.put(writer)
    }
}

impl Message {
    /// No more pairs than a message of promises holds.
    fn count_fits(&self) -> bool
        ensures { result ≡ count_fits self.now }
    {
        match self {
            Message::MPromises { promises, .. } => promises.count as usize <= PAIRS,
            _ => true,
        }
    }
}

/// Writes a message at the start of a buffer and answers its length. Refused where the buffer is too short for every
/// message, then as in reading; a refusal leaves the buffer as it was.
pub fn write(figures: &Figures, message: &Message, buffer: &mut [u8]) -> Result<usize, LineFault>
    ensures { Written message.now buffer.old buffer.new (writing figures.now.r figures.now.f message.now buffer.old) result }
{
    if buffer.len() < LEAST_BUFFER {
        return Err(LineFault::ShortBuffer);
    }
    if !message.count_fits() {
        return Err(LineFault::Malformed);
    }
    message.check(figures)?;
    let mut writer = Writer { buffer, at: 0 };
    writer.put_message(message);
    Ok(writer.at)
}
