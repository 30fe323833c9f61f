//! What the bench answers to a line, and the account that it keeps.

use crate::account::Account;
use line_format::writing::LEAST_BUFFER;
use line_format::{LineFault, Message, read, shape, write};
use line_text::fields::label;
use line_text::reading;
use line_text::showing::show;
use schedule::Figures;
use std::alloc::{AllocError, Global};
use std::fmt;
use text_forms::hexadecimal::{bytes, is_hexadecimal, show_bytes};

/// The figures of the group, the buffer that messages are written to, and the account.
#[derive(Drop)]
pub struct Bench {
    figures: Figures,
    buffer: [u8; LEAST_BUFFER],
    account: Account,
}

/// Whether a line says nothing: it is blank, or a remark.
pub(crate) fn passed_over(line: &str) -> bool {
    line.trim().is_empty() || line.starts_with('#')
}

impl Bench {
    pub(crate) fn new(figures: Figures) -> Bench {
        Bench {
            figures,
            buffer: [0; LEAST_BUFFER],
            account: Account::new(),
        }
    }

    pub(crate) fn account(&self) -> &Account {
        &self.account
    }

    /// Adds the answer to a line to a text.
    // kept: allocator, line and text are three parameters: a struct of them would live for one call.
    pub(crate) fn answer(
        &mut self,
        heap: Global,
        line: &str,
        out: &mut String,
    ) -> anyhow::Result<()> {
        if is_hexadecimal(line) {
            self.answer_bytes(heap, line, out)
        } else {
            self.answer_words(heap, line, out)
        }
    }

    /// Adds the answer to a line that is no text.
    pub(crate) fn no_text(&mut self, out: &mut String) -> Result<(), AllocError> {
        self.account.count_not_understood();
        write!(out, "not understood (not text)")
    }

    fn answer_bytes(&mut self, heap: Global, line: &str, out: &mut String) -> anyhow::Result<()> {
        let Some(given) = bytes(heap, line)? else {
            self.account.count_not_understood();
            write!(out, "not understood (an odd number of hexadecimal digits)")?;
            return Ok(());
        };
        match read(&self.figures, given.as_slice()) {
            Ok(message) => {
                self.account.count_read(&message);
                show(&message, out)?;
            }
            Err(fault) => {
                self.account.count_refused(fault);
                match shape(given.as_slice()) {
                    Ok(said) => refuse(&self.figures, fault, &said, out)?,
                    Err(_) => refuse_shape(fault, given.as_slice(), out)?,
                }
            }
        }
        Ok(())
    }

    fn answer_words(&mut self, heap: Global, line: &str, out: &mut String) -> anyhow::Result<()> {
        let words = reading::words(heap, line)?;
        match reading::read(words.as_slice()) {
            Ok(message) => self.write_out(&message, out)?,
            Err(fault) => {
                self.account.count_not_understood();
                write!(out, "not understood ({fault})")?;
            }
        }
        Ok(())
    }

    fn write_out(&mut self, message: &Message, out: &mut String) -> fmt::Result {
        match write(&self.figures, message, &mut self.buffer) {
            Ok(length) => {
                self.account.count_written();
                show_bytes(&self.buffer[0..length], out)
            }
            Err(fault) => {
                self.account.count_refused(fault);
                Ok(refuse(&self.figures, fault, message, out)?)
            }
        }
    }
}

/// The number of a message's refusal, and a few words why.
fn refuse(
    figures: &Figures,
    fault: LineFault,
    message: &Message,
    out: &mut String,
) -> Result<(), AllocError> {
    let number = fault.number();
    match message.unfit(figures) {
        Some(field) if fault == LineFault::OutsideLimits => {
            let name = label(field);
            write!(out, "refused {number} ({name} outside its limits)")
        }
        _ => write!(out, "refused {number} (more pairs than a message holds)"),
    }
}

/// The number of the refusal of bytes that have no message's shape, and a few words why.
fn refuse_shape(fault: LineFault, bytes: &[u8], out: &mut String) -> Result<(), AllocError> {
    let number = fault.number();
    let length = bytes.len();
    match bytes {
        [0, 0, 0, kind, ..] if *kind >= 1 && *kind <= 9 => write!(
            out,
            "refused {number} (no message of type {kind} has these {length} bytes)"
        ),
        [_, _, _, _, ..] => write!(out, "refused {number} (no message has this type)"),
        _ => write!(out, "refused {number} (fewer than 4 bytes)"),
    }
}
