//! The nine forms of a message, and their names.

ghost use Rattle.std.specs.Prelude.{◌≡◌, Some, ok_or};
ghost use Rattle.schedule.specs.Changes.{nameless};
ghost use Rattle.text_forms.specs.Forms.{form_of, form_name, form_named};

use line_format::Message;
use schedule::UnknownName;
use std::fmt;
use std::str::FromStr;

/// Which message: its name, whatever its fields hold.
#[derive(Clone, Copy, PartialEq, Eq, Debug)]
pub enum Form {
    MPayload,
    MPropose,
    MProposeAck,
    MCommit,
    MConsensus,
    MConsensusAck,
    MRec,
    MRecAck,
    MPromises,
}

/// The form of a message.
impl From<&Message> for Form {
    ghost from_gives = { λ message form. form ≡ form_of message.now };

    fn from(message: &Message) -> Form {
        match message {
            Message::MPayload { .. } => Form::MPayload,
            Message::MPropose { .. } => Form::MPropose,
            Message::MProposeAck { .. } => Form::MProposeAck,
            Message::MCommit { .. } => Form::MCommit,
            Message::MConsensus { .. } => Form::MConsensus,
            Message::MConsensusAck { .. } => Form::MConsensusAck,
            Message::MRec { .. } => Form::MRec,
            Message::MRecAck { .. } => Form::MRecAck,
            Message::MPromises { .. } => Form::MPromises,
        }
    }
}

impl Form {
    /// The form's name.
    // kept: names stand here and in `from_str`, since no macro may write an impl.
    pub fn name(&self) -> &'static str
        ensures { result.now ≡ form_name self.now }
    {
        match self {
            Form::MPayload => "MPayload",
            Form::MPropose => "MPropose",
            Form::MProposeAck => "MProposeAck",
            Form::MCommit => "MCommit",
            Form::MConsensus => "MConsensus",
            Form::MConsensusAck => "MConsensusAck",
            Form::MRec => "MRec",
            Form::MRecAck => "MRecAck",
            Form::MPromises => "MPromises",
        }
    }
}

impl fmt::Display for Form {
    ghost output = { λ form. Some (form_name form) };

    fn fmt<W: fmt::Write>(&self, f: &mut fmt::Formatter<W>) -> fmt::Result {
        f.write_str(self.name())
    }
}

/// The form of a name.
impl FromStr for Form {
    type Err = UnknownName;

    ghost from_str_gives = { λ text answer. answer ≡ ok_or (form_named text) nameless };

    fn from_str(text: &str) -> Result<Form, UnknownName> {
        match text {
            "MPayload" => Ok(Form::MPayload),
            "MPropose" => Ok(Form::MPropose),
            "MProposeAck" => Ok(Form::MProposeAck),
            "MCommit" => Ok(Form::MCommit),
            "MConsensus" => Ok(Form::MConsensus),
            "MConsensusAck" => Ok(Form::MConsensusAck),
            "MRec" => Ok(Form::MRec),
            "MRecAck" => Ok(Form::MRecAck),
            "MPromises" => Ok(Form::MPromises),
            _ => Err(UnknownName),
        }
    }
}
