//! Sets of timestamps.

ghost use Rattle.std.specs.Prelude.{◌≡◌, ℕ, ◌||◌};
ghost use Rattle.promise_words.specs.Timestamps.{place, has, among, no_words, with_one, with_range, joined};
ghost use Rattle.promise_words.specs.Runs.{RunTo, unbroken};

use line_format::message::WORDS;
use schedule::figures::LAST_TIMESTAMP;
use std::array;

/// A set of timestamps: bit k of word w, both from 0, is timestamp 64w + k + 1.
/// Bits above the last timestamp mean nothing.
#[derive(Clone, Copy, PartialEq, Eq, Debug)]
pub struct Timestamps {
    pub words: [u64; WORDS],
}

/// The word and the bit of a timestamp; none for a number that is no timestamp.
fn place(t: u32) -> Option<(usize, u32)>
    ensures { result ≡ place t }
{
    (1..=LAST_TIMESTAMP)
        .contains(&t)
        .then(|| ((t - 1) as usize / 64, (t - 1) % 64))
}

impl Timestamps {
    /// No timestamps.
    #[tactic(auto, unfolding(crate::specs::Timestamps::no_words))]
    pub fn none() -> Timestamps
        ensures { result.words ≡ no_words }
    {
        Timestamps { words: [0; WORDS] }
    }

    /// Whether t is in.
    pub fn contains(&self, t: u32) -> bool
        ensures { result ≡ has self.now.words t }
    {
        place(t).is_some_and(|(word, bit)| (self.words[word] >> bit) % 2 == 1)
    }

    /// Puts t in; a number that is no timestamp is left out.
    pub fn insert(&mut self, t: u32)
        ensures value { self.new.words ≡ with_one self.old.words t }
        ensures members { (u : ℕ) → has self.new.words u ≡ (has self.old.words u || among t t u) }
    {
        if let Some((word, bit)) = place(t) {
            self.words[word] |= 1 << bit;
        }
    }

    /// Puts first to last in, as far as they are timestamps.
    pub fn insert_range(&mut self, first: u32, last: u32)
        ensures value { self.new.words ≡ with_range self.old.words first last }
        ensures members { (u : ℕ) → has self.new.words u ≡ (has self.old.words u || among first last u) }
    {
        let from = first.max(1);
        let end = last.min(LAST_TIMESTAMP) + 1;
        for t in from..end {
            self.insert(t);
        }
    }

    /// Puts in all that the other set holds.
    pub fn join(&mut self, other: &Timestamps)
        ensures value { self.new.words ≡ joined self.old.words other.now.words }
        ensures members { (u : ℕ) → has self.new.words u ≡ (has self.old.words u || has other.now.words u) }
    {
        self.words = array::from_fn(|i| self.words[i] | other.words[i]);
    }

    /// The unbroken run from timestamp 1: how far all are in.
    pub fn run(&self) -> u32
        ensures value { result ≡ unbroken self.now.words }
        ensures whole { RunTo self.now.words result }
    {
        match self.words.iter().position(|word| *word != u64::MAX) {
            Some(i) => (64 * i as u32 + self.words[i].trailing_ones()).min(LAST_TIMESTAMP),
            None => LAST_TIMESTAMP,
        }
    }
}
