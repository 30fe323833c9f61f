//! The messages of the line.

use schedule::{Change, ControllerSet};

/// How many words hold the timestamps of a day.
pub const WORDS: usize = 25;
/// How many pairs a message of promises holds at most.
pub const PAIRS: usize = 224;

/// A controller's own promise for one change.
#[derive(Clone, Copy, Default, PartialEq, Eq, Debug)]
pub struct Pair {
    pub id: u32,
    pub timestamp: u32,
}

/// The promises that a controller tells: bit k of word w is the detached timestamp 64w + k + 1;
/// the first `count` pairs are its own promises, and the places after them are zero.
// kept: fixed memory, since after commissioning no call allocates.
#[derive(Clone, Copy, PartialEq, Eq, Debug)]
pub struct Promises {
    pub detached: [u64; WORDS],
    pub count: u32,
    pub pairs: [Pair; PAIRS],
}

/// A message of the line. Its numbers may be anything; `check` and `unfit` say whether they are within their limits.
// kept: a phase and an accepted ballot are numbers here, since any number of the line is held and then refused as a whole (14).
#[derive(Clone, Copy, PartialEq, Eq, Debug)]
pub enum Message {
    MPayload {
        sender: u32,
        id: u32,
        change: Change,
        set: ControllerSet,
    },
    MPropose {
        sender: u32,
        id: u32,
        change: Change,
        set: ControllerSet,
        timestamp: u32,
    },
    MProposeAck {
        sender: u32,
        id: u32,
        timestamp: u32,
    },
    MCommit {
        sender: u32,
        id: u32,
        timestamp: u32,
    },
    MConsensus {
        sender: u32,
        id: u32,
        timestamp: u32,
        ballot: u32,
    },
    MConsensusAck {
        sender: u32,
        id: u32,
        ballot: u32,
    },
    MRec {
        sender: u32,
        id: u32,
        ballot: u32,
    },
    MRecAck {
        sender: u32,
        id: u32,
        timestamp: u32,
        phase: u32,
        accepted: u32,
        ballot: u32,
    },
    MPromises {
        sender: u32,
        promises: Promises,
    },
}
