//! A field as a word: its name, `=`, and its value.

ghost use Rattle.std.specs.Prelude.{◌≡◌, Some, decimal};
ghost use Rattle.std.specs.Fmt.{WritesOnOk};
ghost use Rattle.std.specs.Option.{option_map, unwrap_or};
ghost use Rattle.line_text.specs.Labels.{label, pending_phase, word_of, named};
ghost use Rattle.line_text.specs.Values.{number_of, number_text, value_in, told};

use crate::fault::NotUnderstood;
use crate::lists::{Members, cut, gather};
use line_format::Field;
use schedule::{ControllerSet, Department, Kind, Phase};
use std::fmt;
use text_forms::number::number;

/// The name of a field.
// kept: Field is line_format's, which has no text, so its Display would stand there.
pub fn label(field: Field) -> &'static str
    ensures { result.now ≡ label field }
{
    match field {
        Field::Sender => "sender",
        Field::Id => "id",
        Field::Department => "department",
        Field::Kind => "kind",
        Field::Hour => "hour",
        Field::Slot => "slot",
        Field::Value => "value",
        Field::Set => "set",
        Field::Timestamp => "timestamp",
        Field::Ballot => "ballot",
        Field::Phase => "phase",
        Field::Accepted => "accepted",
        Field::Detached => "detached",
        Field::Pairs => "pairs",
    }
}

/// The word that stands for a number in a field, where there is one.
#[tactic(auto, using(crate::proofs::Known::known))]
fn word_of(field: Field, number: u32) -> Option<&'static str>
    ensures { option_map (λ x. x.now) result ≡ word_of field number }
{
    match field {
        Field::Department => Department::try_from(number).ok().map(|known| known.name()),
        Field::Kind => Kind::try_from(number).ok().map(|known| known.name()),
        Field::Phase => pending(Phase::try_from(number).ok()).map(|known| known.name()),
        _ => None,
    }
}

/// A phase that a message can give.
fn pending(phase: Option<Phase>) -> Option<Phase>
    ensures { result ≡ pending_phase phase }
{
    phase.filter(|known| known.is_pending())
}

/// The number that a word stands for in a field, where it stands for one.
#[tactic(auto, using(crate::proofs::Known::known))]
fn named(field: Field, text: &str) -> Option<u32>
    ensures { result ≡ named field text.now }
{
    match field {
        Field::Department => text
            .parse::<Department>()
            .ok()
            .map(|known| u32::from(known)),
        Field::Kind => text.parse::<Kind>().ok().map(|known| u32::from(known)),
        Field::Phase => pending(text.parse::<Phase>().ok()).map(|known| u32::from(known)),
        _ => None,
    }
}

/// The number that a field's value stands for.
pub(crate) fn number_of(field: Field, text: &str) -> Option<u32>
    ensures { result ≡ number_of field text.now }
{
    match field {
        Field::Set => gather(ControllerSet::default(), text).map(|set| set.bits),
        _ => named(field, text).or_else(|| number(text)),
    }
}

/// A word where there is one, else the number.
fn show_word<W: fmt::Write>(
    word: Option<&str>,
    number: u32,
    f: &mut fmt::Formatter<W>,
) -> fmt::Result
    ensures { WritesOnOk W.write_str_gives f.old result (unwrap_or (option_map (λ x. x.now) word.entry) (decimal number)) f.new }
{
    match word {
        Some(name) => write!(f, "{name}"),
        None => write!(f, "{number}"),
    }
}

/// A field's value as text: a word or a set's members where the field has such, else the number.
#[derive(Clone, Copy)]
pub(crate) struct ShownNumber(pub Field, pub u32);

impl fmt::Display for ShownNumber {
    ghost output = { λ shown. Some (number_text shown.0 shown.1) };

    fn fmt<W: fmt::Write>(&self, f: &mut fmt::Formatter<W>) -> fmt::Result {
        let ShownNumber(field, number) = *self;
        match field {
            Field::Set => write!(f, "{}", Members(number)),
            _ => show_word(word_of(field, number), number, f),
        }
    }
}

/// The value in a word that should be this field.
pub(crate) fn value_in<'a>(field: Field, word: &'a str) -> Result<&'a str, NotUnderstood>
    ensures { told (λ x. x.now) result ≡ value_in field word.now }
{
    let Some((name, value)) = cut(word, '=') else {
        return Err(NotUnderstood::Expected(field));
    };
    if name == label(field) {
        Ok(value)
    } else {
        Err(NotUnderstood::Expected(field))
    }
}
