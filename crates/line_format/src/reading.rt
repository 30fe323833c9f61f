//! Reading a message from bytes.

ghost use Rattle.std.specs.Prelude.{◌≡◌, ℕ, ◌+◌, ◌*◌, ◌≤◌, List, ◌++◌, length, drop, if◌then◌else◌, Ok, Err};
ghost use Rattle.line_format.specs.declared.fault.LineFault.TheVariants.{Malformed};
ghost use Rattle.line_format.specs.declared.message.Message.TheVariants.{MPromises};
ghost use Rattle.line_format.specs.Fields.{int_at, hyper_at, pair_at, fields_at};
ghost use Rattle.line_format.specs.Laws.{Encoded};
ghost use Rattle.line_format.specs.Reading.{change_in, set_in, promises_in, promises_shaped, shape, reading};

use crate::fault::LineFault;
use crate::message::{Message, PAIRS, Pair, Promises, WORDS};
use schedule::{Change, ControllerSet, Figures};

/// The unsigned int at a place.
// kept: the bound stands at each reader of a place; `first_chunk` would answer an Option, unwrapped by the same bound.
fn int_at(bytes: &[u8], at: usize) -> u32
    requires { at + 4 ≤ length bytes.now }
    ensures { result ≡ int_at bytes.now at }
{
    u32::from_be_bytes([bytes[at], bytes[at + 1], bytes[at + 2], bytes[at + 3]])
}

/// The unsigned hyper at a place.
fn hyper_at(bytes: &[u8], at: usize) -> u64
    requires { at + 8 ≤ length bytes.now }
    ensures { result ≡ hyper_at bytes.now at }
{
    u64::from_be_bytes([
        bytes[at],
        bytes[at + 1],
        bytes[at + 2],
        bytes[at + 3],
        bytes[at + 4],
        bytes[at + 5],
        bytes[at + 6],
        bytes[at + 7],
    ])
}

fn pair_at(bytes: &[u8], at: usize) -> Pair
    requires { at + 8 ≤ length bytes.now }
    ensures { result ≡ pair_at bytes.now at }
{
    Pair {
        id: int_at(bytes, at),
        timestamp: int_at(bytes, at + 4),
    }
}

/// The change of MPayload and MPropose.
fn change_in(bytes: &[u8]) -> Change
    requires { 36 ≤ length bytes.now }
    ensures { result ≡ change_in bytes.now }
{
    Change {
        department: int_at(bytes, 12),
        kind: int_at(bytes, 16),
        hour: int_at(bytes, 20),
        slot: int_at(bytes, 24),
        value: int_at(bytes, 28),
    }
}

/// The set of MPayload and MPropose.
fn set_in(bytes: &[u8]) -> ControllerSet
    requires { 36 ≤ length bytes.now }
    ensures { result ≡ set_in bytes.now }
{
    ControllerSet {
        bits: int_at(bytes, 32),
    }
}

/// A field of eight bytes: a promise word or a pair.
trait Wide: Copy {
    ghost found: { List ℕ → ℕ → Self };

    fn get(bytes: &[u8], at: usize) -> Self
        requires { at + 8 ≤ length bytes.now }
        ensures { result ≡ Self.Wide.found bytes.now at };
}

impl Wide for u64 {
    ghost found = { hyper_at };

    fn get(bytes: &[u8], at: usize) -> u64 {
        hyper_at(bytes, at)
    }
}

impl Wide for Pair {
    ghost found = { pair_at };

    fn get(bytes: &[u8], at: usize) -> Pair {
        pair_at(bytes, at)
    }
}

/// Fills the first places of a table with the fields from a place on.
// kept: `array::from_fn` was tried and proved, but the kit cannot yet write out a closure whose bound its callers answer for.
fn fill<F: Wide>(bytes: &[u8], at: usize, count: usize, table: &mut [F])
    requires { (at + 8 * count ≤ length bytes.now) × (count ≤ length table.old) }
    ensures { table.new ≡ fields_at F.Wide.found 8 bytes.now at count ++ drop count table.old }
{
    for i in 0..count {
        table[i] = F::get(bytes, at + 8 * i);
    }
}

/// The promises of MPromises, once their count is known to be small enough.
fn promises_in(bytes: &[u8], count: u32) -> Promises
    requires { (count ≡ int_at bytes.now 208) × ((count ≤ 224) × (length bytes.now ≡ 212 + 8 * count)) }
    ensures { result ≡ promises_in bytes.now }
{
    let mut detached = [0; WORDS];
    fill(bytes, 8, WORDS, &mut detached);
    // kept: `Pair::default()` was tried here, and the proof did not close.
    let mut pairs = [Pair {
        id: 0,
        timestamp: 0,
    }; PAIRS];
    fill(bytes, 212, count as usize, &mut pairs);
    Promises {
        detached,
        count,
        pairs,
    }
}

/// MPromises: 212 bytes and eight for each pair.
fn promises_shape(bytes: &[u8]) -> Result<Message, LineFault>
    requires { 4 ≤ length bytes.now }
    ensures { result ≡ (if promises_shaped bytes.now then Ok (MPromises (int_at bytes.now 4) (promises_in bytes.now)) else Err Malformed) }
{
    if bytes.len() < 212 {
        return Err(LineFault::Malformed);
    }
    let count = int_at(bytes, 208);
    if count as usize > PAIRS || bytes.len() != 212 + 8 * count as usize {
        return Err(LineFault::Malformed);
    }
    Ok(Message::MPromises {
        sender: int_at(bytes, 4),
        promises: promises_in(bytes, count),
    })
}

/// The message of a type and length, whatever its numbers.
// kept: the numbers are the types of the format; longer than other functions, with one arm for each of nine messages.
pub fn shape(bytes: &[u8]) -> Result<Message, LineFault>
    ensures { result ≡ shape bytes.now }
{
    let len = bytes.len();
    if len < 4 {
        return Err(LineFault::Malformed);
    }
    let kind = int_at(bytes, 0);
    match kind {
        1 if len == 36 => Ok(Message::MPayload {
            sender: int_at(bytes, 4),
            id: int_at(bytes, 8),
            change: change_in(bytes),
            set: set_in(bytes),
        }),
        2 if len == 40 => Ok(Message::MPropose {
            sender: int_at(bytes, 4),
            id: int_at(bytes, 8),
            change: change_in(bytes),
            set: set_in(bytes),
            timestamp: int_at(bytes, 36),
        }),
        3 if len == 16 => Ok(Message::MProposeAck {
            sender: int_at(bytes, 4),
            id: int_at(bytes, 8),
            timestamp: int_at(bytes, 12),
        }),
        4 if len == 16 => Ok(Message::MCommit {
            sender: int_at(bytes, 4),
            id: int_at(bytes, 8),
            timestamp: int_at(bytes, 12),
        }),
        5 if len == 20 => Ok(Message::MConsensus {
            sender: int_at(bytes, 4),
            id: int_at(bytes, 8),
            timestamp: int_at(bytes, 12),
            ballot: int_at(bytes, 16),
        }),
        6 if len == 16 => Ok(Message::MConsensusAck {
            sender: int_at(bytes, 4),
            id: int_at(bytes, 8),
            ballot: int_at(bytes, 12),
        }),
        7 if len == 16 => Ok(Message::MRec {
            sender: int_at(bytes, 4),
            id: int_at(bytes, 8),
            ballot: int_at(bytes, 12),
        }),
        8 if len == 28 => Ok(Message::MRecAck {
            sender: int_at(bytes, 4),
            id: int_at(bytes, 8),
            timestamp: int_at(bytes, 12),
            phase: int_at(bytes, 16),
            accepted: int_at(bytes, 20),
            ballot: int_at(bytes, 24),
        }),
        9 => promises_shape(bytes),
        _ => Err(LineFault::Malformed),
    }
}

/// Reads a message: refused where no message has this type, length or count, then where a field is outside its limits.
/// What is read has these bytes as its one encoding.
pub fn read(figures: &Figures, bytes: &[u8]) -> Result<Message, LineFault>
    ensures value { result ≡ reading figures.now.r figures.now.f bytes.now }
    ensures encoded { Encoded bytes.now result }
{
    let message = shape(bytes)?;
    message.check(figures)?;
    Ok(message)
}
