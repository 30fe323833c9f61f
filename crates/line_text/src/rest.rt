//! The words of a line that are still to be read, field by field.

ghost use Rattle.std.specs.Prelude.{◌≡◌, drop, length, OnOk};
ghost use Rattle.line_text.specs.Reading.{to_read, value_first, number_first, numbers_first, numbers_all, listed_first, ended};
ghost use Rattle.line_text.specs.Values.{told};

use crate::fault::NotUnderstood;
use crate::fields::{number_of, value_in};
use crate::lists::{Gathering, gather};
use line_format::Field;
use std::slice;

/// The words that are still to be read.
#[derive(Drop)]
pub(crate) struct Rest<'a, 'b> {
    pub words: slice::Iter<'a, &'b str>,
}

impl<'a, 'b> Rest<'a, 'b> {
    /// The value of the field that should come next.
    fn value(&mut self, field: Field) -> Result<&'b str, NotUnderstood>
        ensures given { told (λ x. x.now) result ≡ value_first field (to_read self.old) }
        ensures left { to_read self.new ≡ drop 1 (to_read self.old) }
    {
        let Some(word) = self.words.next() else {
            return Err(NotUnderstood::Expected(field));
        };
        value_in(field, *word)
    }

    /// The number of the field that should come next.
    #[tactic(auto, unfolding(crate::specs::Reading::number_first))]
    pub(crate) fn number(&mut self, field: Field) -> Result<u32, NotUnderstood>
        ensures given { result ≡ number_first field (to_read self.old) }
        ensures left { to_read self.new ≡ drop 1 (to_read self.old) }
    {
        let value = self.value(field)?;
        number_of(field, value).ok_or(NotUnderstood::Value(field))
    }

    /// The numbers of fields that should come one after the other.
    pub(crate) fn numbers<const N: usize>(
        &mut self,
        fields: &[Field; N],
    ) -> Result<[u32; N], NotUnderstood>
        ensures given { result ≡ numbers_first fields.now (to_read self.old) }
        ensures left { OnOk result (to_read self.new ≡ drop (length fields.now) (to_read self.old)) }
    {
        let mut numbers = [0; N];
        // kept: tried `iter_mut().zip(fields)`, where no proof knows what was written through the adapter, and `array::try_from_fn`, whose bound on memory stays open at any N.
        for (i, field) in fields.iter().enumerate() {
            numbers[i] = self.number(*field)?;
        }
        Ok(numbers)
    }

    /// What the list in the field that should come next adds to what is there.
    #[tactic(auto, unfolding(crate::specs::Reading::listed_first))]
    pub(crate) fn list<G: Gathering>(&mut self, field: Field, start: G) -> Result<G, NotUnderstood>
        ensures given { result ≡ listed_first G.Gathering.adds start field (to_read self.old) }
        ensures left { to_read self.new ≡ drop 1 (to_read self.old) }
    {
        let value = self.value(field)?;
        gather(start, value).ok_or(NotUnderstood::Value(field))
    }

    /// No word is left.
    pub(crate) fn end(&self) -> Result<(), NotUnderstood>
        ensures { result ≡ ended (to_read self.now) tt }
    {
        if self.words.as_slice().is_empty() {
            Ok(())
        } else {
            Err(NotUnderstood::Leftover)
        }
    }

    /// The numbers of fields, where no word follows them.
    #[tactic(auto, unfolding(crate::specs::Reading::numbers_all))]
    pub(crate) fn all<const N: usize>(
        mut self,
        fields: &[Field; N],
    ) -> Result<[u32; N], NotUnderstood>
        ensures { result ≡ numbers_all fields.now (to_read self.entry) }
    {
        let numbers = self.numbers(fields)?;
        self.end()?;
        Ok(numbers)
    }
}
