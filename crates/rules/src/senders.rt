//! Who may send a message.

ghost use Rattle.std.specs.Prelude.{◌≡◌};
ghost use Rattle.rules.specs.Senders.{rightful};

use line_format::Message;
use sites::Site;

/// Whether a controller other than this one sent the message, and one that may: a change comes from its home, and a
/// ballot's messages from its owner.
pub fn is_rightful(site: &Site, message: &Message) -> bool
    ensures { result ≡ rightful site.now.figures.r site.now.own message.now }
{
    match message {
        Message::MPayload { sender, id, .. } | Message::MPropose { sender, id, .. } => {
            *sender != site.own && site.is_home(*sender, *id)
        }
        Message::MConsensus { sender, ballot, .. } | Message::MRec { sender, ballot, .. } => {
            *sender != site.own && site.is_owner(*sender, *ballot)
        }
        Message::MProposeAck { sender, .. }
        | Message::MCommit { sender, .. }
        | Message::MConsensusAck { sender, .. }
        | Message::MRecAck { sender, .. }
        | Message::MPromises { sender, .. } => *sender != site.own,
    }
}
