// The laws of a group of controllers, in the abstract: each stands on the contract of one small function.
// Nothing here knows what a change asks for, how it is numbered, or how large a group may be.
#![tactic(auto)]

ghost use Rattle.std.specs.Prelude.{◌≡◌};
ghost use Rattle.agreement.specs.Sets.{fast_quorum, majority, count, bits, BitsAreMembers};
ghost use Rattle.agreement.specs.OneChange.{OneTimestamp};
ghost use Rattle.agreement.specs.Promises.{NothingBelow};
ghost use Rattle.agreement.specs.Order.{entry, lower, Lawful, SameBeginnings};
ghost use Rattle.agreement.specs.Samples.{Samples};

// How many members the fast set of a change has, in a group of r that tolerates f silent ones.
// With fast sets of that size a group agrees on one timestamp for a change, whatever it does.
pub fn fast_set_size(r: u8, f: u8) -> u16
    ensures size { result ≡ fast_quorum r f }
    ensures law { OneTimestamp }
{
    (r as u16) / 2 + f as u16
}

// How many controllers are more than half of r.
// Once a controller knows all promises of so many up to a timestamp, nothing is left to come up to it.
pub fn majority_size(r: u8) -> u8
    ensures size { result ≡ majority r }
    ensures law { NothingBelow }
{
    r / 2 + 1
}

// How many of 64 controllers are in a set that is given as a number, whose bit j - 1 stands for controller j.
// The laws speak of sets as truth-valued functions; the number of bits set is the number of members.
pub fn set_size(set: u64) -> u32
    ensures size { result ≡ count (bits set) 64 }
    ensures law { BitsAreMembers }
{
    set.count_ones()
}

// Whether the first change comes before the second.
// In this order, and in any other that puts a lower timestamp first, controllers carry out lists that are beginnings of one another.
pub fn comes_before(ts: u64, change: u64, second_ts: u64, second: u64) -> bool
    ensures order { result ≡ lower (entry ts change) (entry second_ts second) }
    ensures lawful { Lawful lower }
    ensures law { SameBeginnings }
{
    (ts, change) < (second_ts, second)
}

// The timestamp that small runs to which the laws apply commit: on the fast path, on the slow path, and by a take over
// in each of the three ways of choosing. So the laws speak of something.
pub fn sample_timestamp() -> u8
    ensures { Samples result }
{
    11
}
