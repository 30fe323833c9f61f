//! The promises of a message: detached timestamps as ranges, and pairs.

ghost use Rattle.std.specs.Prelude.{◌≡◌, Some};
ghost use Rattle.line_text.specs.Promises.{has, with_range, range_in, with_detached, none_yet, pair_in, with_next, with_pair, range_text, detached_text, pair_text, pairs_text};

use crate::lists::{Gathering, add, cut, finish};
use line_format::message::{PAIRS, WORDS};
use line_format::{Pair, Promises};
use std::fmt;
use text_forms::number::number;

/// How many timestamps the words have bits for.
pub const BITS: u32 = 1600;

/// Detached timestamps, a bit for each.
// kept: beside promise_words' timestamps, which end at 1568 and leave out what lies above; here all 1600 bits are read back, and a range above them is refused; with the last number as a parameter only contains would be shared.
#[derive(Clone, Copy)]
pub struct Detached {
    pub words: [u64; WORDS],
}

impl Detached {
    /// Whether timestamp t is among them.
    fn contains(&self, t: u32) -> bool
        ensures { result ≡ has self.now.words t }
    {
        t >= 1 && t <= BITS && (self.words[(t as usize - 1) / 64] >> ((t - 1) % 64)) % 2 == 1
    }

    /// With the timestamps from first to last.
    fn with_range(self, first: u32, last: u32) -> Option<Detached>
        ensures { result ≡ with_range self first last }
    {
        if first < 1 || last < first || last > BITS {
            return None;
        }
        let mut words = self.words;
        for t in first..last + 1 {
            let at = t as usize - 1;
            words[at / 64] |= 1 << (at % 64);
        }
        Some(Detached { words })
    }
}

/// The first and the last timestamp of a range: two numbers, or one.
fn range(text: &str) -> Option<(u32, u32)>
    ensures { result ≡ range_in text.now }
{
    match cut(text, '-') {
        Some((first, last)) => Some((number(first)?, number(last)?)),
        None => {
            let only = number(text)?;
            Some((only, only))
        }
    }
}

impl Gathering for Detached {
    ghost adds = { with_detached };

    fn with(self, piece: &str) -> Option<Detached> {
        let (first, last) = range(piece)?;
        self.with_range(first, last)
    }
}

/// The pairs so far; a count above what there is room for says that there were too many.
// kept: a count beside the places, as in the message that it becomes; read takes no heap.
#[derive(Clone, Copy)]
pub struct Pairs {
    pub count: u32,
    pub pairs: [Pair; PAIRS],
}

impl Pairs {
    /// No pairs.
    #[tactic(auto, unfolding(line_format::specs::Reading::no_pairs))]
    pub(crate) fn none() -> Pairs
        ensures { result ≡ none_yet }
    {
        Pairs {
            count: 0,
            pairs: [Pair::default(); PAIRS],
        }
    }

    /// With one pair more; past the last place only the count tells.
    fn with_next(self, next: Pair) -> Pairs
        ensures { result ≡ with_next self next }
    {
        let mut pairs = self.pairs;
        let count = self.count as usize;
        if count < PAIRS {
            pairs[count] = next;
            Pairs {
                count: self.count + 1,
                pairs,
            }
        } else {
            Pairs {
                count: PAIRS as u32 + 1,
                pairs,
            }
        }
    }
}

fn pair(text: &str) -> Option<Pair>
    ensures { result ≡ pair_in text.now }
{
    let (id, timestamp) = cut(text, ':')?;
    Some(Pair {
        id: number(id)?,
        timestamp: number(timestamp)?,
    })
}

impl Gathering for Pairs {
    ghost adds = { with_pair };

    fn with(self, piece: &str) -> Option<Pairs> {
        let next = pair(piece)?;
        Some(self.with_next(next))
    }
}

/// A range as text.
#[derive(Clone, Copy)]
struct ShownRange(u32, u32);

impl fmt::Display for ShownRange {
    ghost output = { λ range. Some (range_text (range.0, range.1)) };

    fn fmt<W: fmt::Write>(&self, f: &mut fmt::Formatter<W>) -> fmt::Result {
        let ShownRange(first, last) = *self;
        if first == last {
            write!(f, "{first}")
        } else {
            write!(f, "{first}-{last}")
        }
    }
}

/// Detached timestamps as ranges.
#[derive(Clone, Copy)]
pub(crate) struct ShownDetached<'a>(pub &'a [u64; WORDS]);

impl fmt::Display for ShownDetached<'_> {
    ghost output = { λ shown. Some (detached_text shown.0.now) };

    fn fmt<W: fmt::Write>(&self, f: &mut fmt::Formatter<W>) -> fmt::Result {
        let detached = Detached { words: *self.0 };
        // kept: a flag and an open range; no chain of the library yields the ranges of bits that a joiner would take.
        let mut first = true;
        let mut run = None;
        for t in 1..BITS + 2 {
            let inside = detached.contains(t);
            match run {
                None => {
                    if inside {
                        run = Some(t);
                    }
                }
                Some(begin) => {
                    if !inside {
                        add(first, &ShownRange(begin, t - 1), f)?;
                        first = false;
                        run = None;
                    }
                }
            }
        }
        finish(first, f)
    }
}

/// A pair as text.
#[derive(Clone, Copy)]
struct ShownPair<'a>(&'a Pair);

impl fmt::Display for ShownPair<'_> {
    ghost output = { λ paired. Some (pair_text paired.0.now) };

    fn fmt<W: fmt::Write>(&self, f: &mut fmt::Formatter<W>) -> fmt::Result {
        let id = self.0.id;
        let timestamp = self.0.timestamp;
        write!(f, "{id}:{timestamp}")
    }
}

/// Pairs as text.
#[derive(Clone, Copy)]
pub(crate) struct ShownPairs<'a>(pub &'a Promises);

impl fmt::Display for ShownPairs<'_> {
    ghost output = { λ shown. Some (pairs_text shown.0.now) };

    fn fmt<W: fmt::Write>(&self, f: &mut fmt::Formatter<W>) -> fmt::Result {
        let promises = self.0;
        let count = (promises.count as usize).min(PAIRS);
        let (used, _) = promises.pairs.split_at(count);
        // kept: a flag, as in Members.
        let mut first = true;
        for pair in used {
            add(first, &ShownPair(pair), f)?;
            first = false;
        }
        finish(first, f)
    }
}
