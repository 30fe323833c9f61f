//! The step on one record: by its phase and the message together.

ghost use Rattle.std.specs.Prelude.{◌≡◌, Some, ok_or};
ghost use Rattle.schedule.specs.Phases.{phase_of};
ghost use Rattle.sites.specs.declared.refusal.Refusal.TheVariants.{OutOfStep};
ghost use Rattle.record.specs.Replies.{decision};
ghost use Rattle.steps.specs.Steps.{Settled, with_proposal, settling, asking, decided, gathered, with_ack, backed, joining, rejoined, with_heard, chosen, followed, told_commit, offered, proposed, counts_proposal, counts_ack, counts_recovery, step};
ghost use Rattle.steps.specs.Turns.{Gives, Tries};

use crate::turn::Turn;
use line_format::Message;
use promise_words::{Clock, ClockFault};
use record::{Acks, Decision, Phase, Recovery, Row};
use schedule::{Change, ControllerSet};
use sites::refusal::Refusal;
use sites::sent::{Sent, just};
use sites::site::Site;

impl Turn<'_> {
    /// Commits a timestamp, and tells the others.
    fn settle(&mut self, id: u32, timestamp: u32) -> Sent
        ensures { Gives (settling self.old.site.now.figures.r self.old.site.now.own id timestamp self.old.row.now self.old.clock.now) self.old (Some result) self.new }
    {
        self.commit(timestamp);
        self.site.to_others(Message::MCommit {
            sender: self.site.own,
            id,
            timestamp,
        })
    }

    /// Accepts a timestamp at a ballot that belongs here, and asks the others to.
    fn lead(&mut self, id: u32, timestamp: u32, ballot: u32) -> Sent
        ensures { Gives (asking self.old.site.now.figures.r self.old.site.now.own id timestamp ballot self.old.row.now self.old.clock.now) self.old (Some result) self.new }
    {
        self.accept(timestamp, ballot);
        self.row.acks = Acks {
            from: just(self.site.own),
        };
        self.site.to_others(Message::MConsensus {
            sender: self.site.own,
            id,
            timestamp,
            ballot,
        })
    }

    /// Promises a timestamp on the home's proposal, and replies with it.
    fn answer(
        &mut self,
        home: u32,
        id: u32,
        change: &Change,
        set: &ControllerSet,
        least: u32,
    ) -> Result<Option<Sent>, Refusal>
        ensures { Tries (proposed self.old.site.now.own home id (offered change.now set.now least self.old.row.now self.old.clock.now)) self.old result self.new }
    {
        let timestamp = self.propose(change, set, least)?;
        Ok(Some(Sent::to_one(
            home,
            Message::MProposeAck {
                sender: self.site.own,
                id,
                timestamp,
            },
        )))
    }

    /// Whether a reply to the proposal counts.
    fn counts_proposal(&self, id: u32, from: u32) -> bool
        ensures { result ≡ counts_proposal self.now.site.now.figures.r self.now.site.now.own id from self.now.row.now }
    {
        self.site.is_home(self.site.own, id)
            && self.row.set.contains(from)
            && self.row.proposals.is_new(from)
    }

    /// Notes a reply to the proposal, and decides.
    fn gather(&mut self, id: u32, from: u32, timestamp: u32) -> Option<Sent>
        ensures { Gives (gathered self.old.site.now.figures.r self.old.site.now.figures.f self.old.site.now.own id (with_proposal from timestamp self.old.row.now) self.old.clock.now) self.old result self.new }
    {
        self.row.proposals.note_timestamp(from, timestamp);
        self.decide(id)
    }

    /// After a reply to the proposal: the fast decision, the slow one, or none yet.
    fn decide(&mut self, id: u32) -> Option<Sent>
        ensures { Gives (decided self.old.site.now.figures.r self.old.site.now.own id self.old.row.now self.old.clock.now (decision self.old.site.now.figures.f self.old.row.now.set.bits self.old.row.now.proposals.replies)) self.old result self.new }
    {
        let row = &*self.row;
        match row.proposals.decision(&self.site.figures, &row.set)? {
            Decision::Fast { timestamp } => Some(self.settle(id, timestamp)),
            Decision::Slow { timestamp } => Some(self.lead(id, timestamp, self.site.own)),
        }
    }

    /// Accepts what the owner of a ballot asks for, and tells it.
    fn accept_for(&mut self, id: u32, leader: u32, timestamp: u32, ballot: u32) -> Sent
        ensures { Gives (followed self.old.site.now.own leader id timestamp ballot self.old.row.now self.old.clock.now) self.old (Some result) self.new }
    {
        self.accept(timestamp, ballot);
        Sent::to_one(
            leader,
            Message::MConsensusAck {
                sender: self.site.own,
                id,
                ballot,
            },
        )
    }

    /// Whether an acceptance counts.
    fn counts_ack(&self, ballot: u32, from: u32) -> bool
        ensures { result ≡ counts_ack self.now.site.now.figures.r self.now.site.now.own ballot from self.now.row.now }
    {
        self.row.accepted == Some(ballot) && self.site.owns(ballot) && self.row.acks.is_new(from)
    }

    /// Notes an acceptance, and commits once there are enough.
    fn support(&mut self, id: u32, from: u32) -> Option<Sent>
        ensures { Gives (backed self.old.site.now.figures.r self.old.site.now.figures.f self.old.site.now.own id (with_ack from self.old.row.now) self.old.clock.now) self.old result self.new }
    {
        self.row.acks.note(from);
        if self.row.acks.count() < self.site.figures.slow_quorum() {
            return None;
        }
        Some(self.settle(id, self.row.timestamp))
    }

    /// The commit of a settled change, for one that still asks.
    fn commit_for(&self, asking: u32, id: u32) -> Sent
        ensures { told_commit self.now.site.now.own asking id self.now.row.now ≡ Some result }
    {
        Sent::to_one(
            asking,
            Message::MCommit {
                sender: self.site.own,
                id,
                timestamp: self.row.timestamp,
            },
        )
    }

    /// Joins a ballot, and tells its owner what was promised or accepted before.
    fn reply(&mut self, id: u32, leader: u32, ballot: u32) -> Result<Option<Sent>, Refusal>
        ensures { Tries (rejoined self.old.site.now.own leader id ballot (joining ballot self.old.row.now self.old.clock.now)) self.old result self.new }
    {
        self.join(ballot)?;
        Ok(Some(Sent::to_one(
            leader,
            Message::MRecAck {
                sender: self.site.own,
                id,
                timestamp: self.row.timestamp,
                phase: self.row.phase.into(),
                accepted: self.row.accepted.unwrap_or(0),
                ballot,
            },
        )))
    }

    /// Whether a reply to the take-over counts.
    fn counts_recovery(&self, ballot: u32, from: u32) -> bool
        ensures { result ≡ counts_recovery self.now.site.now.figures.r self.now.site.now.own ballot from self.now.row.now }
    {
        self.row.accepted != Some(ballot)
            && self.site.owns(ballot)
            && ballot > self.site.figures.r
            && self.row.recoveries.is_new(from)
    }

    /// Notes a reply to the take-over, and accepts the choice once there are enough.
    fn hear(&mut self, id: u32, from: u32, ballot: u32, told: Recovery) -> Option<Sent>
        ensures { Gives (chosen self.old.site.now.figures.r self.old.site.now.figures.f self.old.site.now.own id ballot (with_heard from told self.old.row.now) self.old.clock.now) self.old result self.new }
    {
        self.row.recoveries.note(from, Some(told));
        if self.row.recoveries.count() < self.site.figures.takeover_quorum() {
            return None;
        }
        let row = &*self.row;
        let timestamp = row.recoveries.choice(self.site.home(id), &row.set);
        Some(self.lead(id, timestamp, ballot))
    }
}

/// The phase that a number stands for.
fn phase_of(number: u32) -> Result<Phase, Refusal>
    ensures { result ≡ ok_or (phase_of number) OutOfStep }
{
    Phase::try_from(number).map_err(|_| Refusal::OutOfStep)
}

/// What a message does to the record of its change and to the clock, and the message that it hands out.
pub fn step(
    site: &Site,
    row: &mut Row,
    clock: &mut Clock,
    message: &Message,
) -> Result<Option<Sent>, Refusal>
    ensures { Settled (step site.now.figures.r site.now.figures.f site.now.own message.now row.old clock.old) row.old clock.old result row.new clock.new }
{
    let pending = row.phase.is_pending();
    let mut turn = Turn { site, row, clock };
    // kept: one match, longer than other functions: in parts by message, no part would show which arm comes first
    match (message, turn.row.phase) {
        (Message::MPayload { change, set, .. }, Phase::Start) if !set.contains(site.own) => {
            turn.keep(change, set);
            Ok(None)
        }
        (Message::MPropose { change, set, .. }, Phase::Start)
            if turn.row.ballot != 0 && set.contains(site.own) => {
            turn.keep(change, set);
            Ok(None)
        }
        (
            Message::MPropose {
                sender,
                id,
                change,
                set,
                timestamp,
            },
            Phase::Start,
        ) if set.contains(site.own) => turn.answer(*sender, *id, change, set, *timestamp),
        (
            Message::MProposeAck {
                sender,
                id,
                timestamp,
            },
            Phase::Propose,
        ) if turn.row.ballot == 0 && turn.counts_proposal(*id, *sender) => {
            Ok(turn.gather(*id, *sender, *timestamp))
        }
        (Message::MCommit { timestamp, .. }, _) if pending => {
            turn.commit(*timestamp);
            Ok(None)
        }
        (
            Message::MConsensus { sender, id, .. } | Message::MRec { sender, id, .. },
            Phase::Commit | Phase::CarriedOut,
        ) => Ok(Some(turn.commit_for(*sender, *id))),
        (
            Message::MConsensus {
                sender,
                id,
                timestamp,
                ballot,
            },
            _,
        ) if turn.row.ballot <= *ballot => {
            Ok(Some(turn.accept_for(*id, *sender, *timestamp, *ballot)))
        }
        (Message::MConsensusAck { sender, id, ballot }, _)
            if pending && turn.row.ballot == *ballot && turn.counts_ack(*ballot, *sender) => {
            Ok(turn.support(*id, *sender))
        }
        (Message::MRec { sender, id, ballot }, _) if pending && turn.row.ballot < *ballot => {
            turn.reply(*id, *sender, *ballot)
        }
        (
            Message::MRecAck {
                sender,
                id,
                timestamp,
                phase,
                accepted,
                ballot,
            },
            _,
        ) if pending && turn.row.ballot == *ballot && turn.counts_recovery(*ballot, *sender) => {
            let told = Recovery {
                timestamp: *timestamp,
                phase: phase_of(*phase)?,
                accepted: (*accepted != 0).then_some(*accepted),
            };
            Ok(turn.hear(*id, *sender, *ballot, told))
        }
        _ => Err(Refusal::OutOfStep),
    }
}
