//! Entries with a rank, and the search for the first.

ghost use Rattle.std.specs.Prelude.{◌≡◌, Bool, true, false, length};
ghost use Rattle.std.proofs.Common.{rules};
ghost use Rattle.ranking.specs.Entries.{some_eligible, some_before};
ghost use Rattle.ranking.specs.Ranking.{PlaceWithin, leads, first_in_rank, FirstAmong, OnlyFirst, AnyOrder};

/// An entry that may stand in a rank. Two entries neither of which is before the other are tied.
pub trait Ranked {
    ghost eligible: { Self → Bool };

    ghost before: { Self → Self → Bool };

    /// Whether the entry takes part.
    fn is_eligible(&self) -> bool
        ensures { result ≡ Self.Ranked.eligible self.now };

    /// Whether the entry stands before another.
    fn is_before(&self, other: &Self) -> bool
        ensures { result ≡ Self.Ranked.before self.now other.now };

    // Never are two each before the other.
    ghost asymmetric: { (x y : Self) → before x y ≡ true → before y x ≡ false };

    // With it, `before` and being tied both go on from entry to entry.
    ghost chains: { (x y z : Self) → before x y ≡ false → before y z ≡ false → before x z ≡ false };
}

/// An entry that may be missing, and then takes no part.
impl<T: Ranked> Ranked for Option<T> {
    ghost eligible = { some_eligible T.Ranked.eligible };

    ghost before = { some_before T.Ranked.before };

    ghost asymmetric = { Prim.search rules };

    ghost chains = { Prim.search rules };

    fn is_eligible(&self) -> bool {
        match self {
            Some(x) => x.is_eligible(),
            None => false,
        }
    }

    fn is_before(&self, other: &Option<T>) -> bool {
        match (self, other) {
            (Some(x), Some(y)) => x.is_before(y),
            _ => self.is_some(),
        }
    }
}

// Whether an entry is before the first so far, or is the first of all.
fn leads<T: Ranked>(entries: &[T], first: Option<usize>, entry: &T) -> bool
    requires { PlaceWithin entries.now first }
    ensures { result ≡ leads T.Ranked.before entries.now first entry.now }
{
    match first {
        None => true,
        Some(i) => entry.is_before(&entries[i]),
    }
}

/// The place of the eligible entry that no eligible one is before; of tied ones the lowest place.
pub fn first_in_rank<T: Ranked>(entries: &[T]) -> Option<usize>
    ensures value { result ≡ first_in_rank T.Ranked.eligible T.Ranked.before entries.now }
    ensures first { FirstAmong T.Ranked.eligible T.Ranked.before entries.now (length entries.now) result }
    ensures only { OnlyFirst T.Ranked.eligible T.Ranked.before entries.now result }
    ensures order { AnyOrder T.Ranked.eligible T.Ranked.before entries.now result }
{
    let mut first = None;
    // kept: as filter and reduce it is as long, and its proof does not close
    for (i, entry) in entries.iter().enumerate() {
        if entry.is_eligible() && leads(entries, first, entry) {
            first = Some(i);
        }
    }
    first
}
