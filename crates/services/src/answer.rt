//! What carrying out a change came to.

ghost use Rattle.std.specs.Prelude.{◌≡◌, ok_or};
ghost use Rattle.schedule.specs.Changes.{unknown};
ghost use Rattle.services.specs.Answers.{answer_number, answer_of};

use schedule::UnknownNumber;

/// What carrying out a change came to.
#[derive(Clone, Copy, PartialEq, Eq, Debug)]
pub enum Answer {
    Done,
    Occupied,
    Empty,
    NoValue,
    HourFull,
    NotHolder,
    OthersSay,
    OutsideLimits,
}

/// The number that stands for an answer, the first of an outcome's two.
impl From<Answer> for u32 {
    ghost from_gives = { λ answer number. number ≡ answer_number answer };

    fn from(answer: Answer) -> u32 {
        match answer {
            Answer::Done => 0,
            Answer::Occupied => 1,
            Answer::Empty => 2,
            Answer::NoValue => 3,
            Answer::HourFull => 4,
            Answer::NotHolder => 7,
            Answer::OthersSay => 8,
            Answer::OutsideLimits => 9,
        }
    }
}

/// The answer that a number stands for.
impl TryFrom<u32> for Answer {
    type Error = UnknownNumber;

    ghost try_from_gives = { λ number answer. answer ≡ ok_or (answer_of number) (unknown number) };

    fn try_from(number: u32) -> Result<Answer, UnknownNumber> {
        match number {
            0 => Ok(Answer::Done),
            1 => Ok(Answer::Occupied),
            2 => Ok(Answer::Empty),
            3 => Ok(Answer::NoValue),
            4 => Ok(Answer::HourFull),
            7 => Ok(Answer::NotHolder),
            8 => Ok(Answer::OthersSay),
            9 => Ok(Answer::OutsideLimits),
            _ => Err(UnknownNumber(number)),
        }
    }
}
