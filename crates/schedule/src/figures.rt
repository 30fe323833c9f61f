//! The figures of a group, its quorums, and who a number belongs to.

ghost use Rattle.std.specs.Prelude.{◌≡◌, ◌+◌, ◌*◌, ◌≤◌};
ghost use Rattle.schedule.specs.Group.{majority, fast_quorum, slow_quorum, takeover_quorum, home_of, owner_of};

/// How many changes each controller enters at most.
pub const CHANGES_EACH: u32 = 32;
/// The last timestamp of a day.
pub const LAST_TIMESTAMP: u32 = 1568;
/// The last ballot.
pub const LAST_BALLOT: u32 = 65535;

/// A group of r controllers, numbered 1 to r, that tolerates f silent ones.
#[derive(Clone, Copy, PartialEq, Eq, Debug)]
pub struct Figures {
    pub r: u32,
    pub f: u32,
    ghost least: { 3 ≤ r },
    ghost most: { r ≤ 7 },
    ghost some: { 1 ≤ f },
    ghost spare: { 2 * f + 1 ≤ r },
}

/// Why no figures were made.
#[derive(Clone, Copy, PartialEq, Eq, Debug)]
pub enum FiguresFault {
    OutsideLimits,
}

impl Figures {
    /// More than half of the group.
    pub fn majority(&self) -> u32
        ensures { result ≡ majority self.now.r }
    {
        self.r / 2 + 1
    }

    /// How many members a fast set has.
    pub fn fast_quorum(&self) -> u32
        ensures { result ≡ fast_quorum self.now.r self.now.f }
    {
        self.r / 2 + self.f
    }

    /// How many acceptances decide a ballot.
    pub fn slow_quorum(&self) -> u32
        ensures { result ≡ slow_quorum self.now.f }
    {
        self.f + 1
    }

    /// How many replies a take-over waits for.
    pub fn takeover_quorum(&self) -> u32
        ensures { result ≡ takeover_quorum self.now.r self.now.f }
    {
        self.r - self.f
    }

    /// The controller that entered the change with this number, if such a number exists.
    pub fn home(&self, id: u32) -> Option<u32>
        ensures { result ≡ home_of self.now.r id }
    {
        if id >= 1 && id <= CHANGES_EACH * self.r {
            Some((id - 1) / CHANGES_EACH + 1)
        } else {
            None
        }
    }

    /// The controller that a ballot belongs to, if such a ballot exists.
    pub fn owner(&self, ballot: u32) -> Option<u32>
        ensures { result ≡ owner_of self.now.r ballot }
    {
        if ballot >= 1 && ballot <= LAST_BALLOT {
            Some((ballot - 1) % self.r + 1)
        } else {
            None
        }
    }
}
