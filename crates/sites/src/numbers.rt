//! Which numbers belong to the controller at a site.

ghost use Rattle.std.specs.Prelude.{◌≡◌};
ghost use Rattle.sites.specs.Sites.{owns, at_home, home_or_none, next_ballot, LeastOwn, Placed};

use crate::site::Site;
use schedule::figures::LAST_BALLOT;
use schedule::{Figures, FiguresFault};

impl Site {
    /// The site of a controller; refused where the group has none of this number.
    pub fn new(figures: Figures, own: u32) -> Result<Site, FiguresFault>
        ensures { Placed figures own result }
    {
        if (1..=figures.r).contains(&own) {
            Ok(Site { figures, own })
        } else {
            Err(FiguresFault::OutsideLimits)
        }
    }

    /// Whether a ballot belongs to a controller of the group.
    pub fn is_owner(&self, controller: u32, ballot: u32) -> bool
        ensures { result ≡ owns self.now.figures.r controller ballot }
    {
        self.figures.owner(ballot) == Some(controller)
    }

    /// Whether a ballot belongs here.
    pub fn owns(&self, ballot: u32) -> bool
        ensures { result ≡ owns self.now.figures.r self.now.own ballot }
    {
        self.is_owner(self.own, ballot)
    }

    /// The home of a change; 0, which is no controller, where no change has this number.
    pub fn home(&self, id: u32) -> u32
        ensures { result ≡ home_or_none self.now.figures.r id }
    {
        // kept: 0 is no controller, so the choice compares numbers; with an Option it would compare with Some(j), no plainer.
        self.figures.home(id).unwrap_or(0)
    }

    /// Whether a change is entered at a controller of the group.
    pub fn is_home(&self, controller: u32, id: u32) -> bool
        ensures { result ≡ at_home self.now.figures.r controller id }
    {
        self.figures.home(id) == Some(controller)
    }

    /// The least ballot above r and above the given one that belongs here; none above the last ballot.
    pub fn next_ballot(&self, ballot: u32) -> Option<u32>
        ensures value { result ≡ next_ballot self.now.figures.r self.now.own ballot }
        ensures least { LeastOwn self.now.figures.r self.now.own ballot result }
    {
        if ballot >= LAST_BALLOT {
            return None;
        }
        let first = ballot.max(self.figures.r) + 1;
        (first..first + self.figures.r).find(|b| self.owns(*b))
    }
}
