//! What holds of the line format as a whole.

ghost use Rattle.std.specs.Prelude.{◌≡◌, ◌+◌, ◌≤◌, ◌<◌, [], ◌∷◌, ◌++◌, length, drop, Ok, Err};
ghost use Rattle.line_format.specs.Laws.{ReadsBack, OneEncoding, NeverTwo, NoLonger, longest};
ghost use Rattle.line_format.specs.declared.fault.LineFault.TheVariants.{ShortBuffer};

use crate::fault::LineFault;
use crate::message::Message;
use crate::writing::write;
use schedule::Figures;
use schedule::figures::CHANGES_EACH;

/// The length of the longest message of a group. With it stand the laws of the format: a message within its limits reads back
/// from what it is written as; bytes that are read are the message's one encoding; two strings of bytes are never read
/// as one message.
pub fn longest_message(figures: &Figures) -> usize
    ensures enough { NoLonger figures.now.r figures.now.f result }
    ensures value { result ≡ longest figures.now.r }
    ensures back { ReadsBack figures.now.r figures.now.f }
    ensures one { OneEncoding figures.now.r figures.now.f }
    ensures apart { NeverTwo figures.now.r figures.now.f }
{
    212 + 8 * (CHANGES_EACH * figures.r) as usize
}

/// The commit from controller 1 of change 65 under timestamp 1, as every group writes it.
pub fn commit_example(figures: &Figures, buffer: &mut [u8]) -> Result<usize, LineFault>
    ensures written { 2048 ≤ length buffer.old → (result ≡ Ok 16) × (buffer.new ≡ (0 ∷ 0 ∷ 0 ∷ 4 ∷ 0 ∷ 0 ∷ 0 ∷ 1 ∷ 0 ∷ 0 ∷ 0 ∷ 65 ∷ 0 ∷ 0 ∷ 0 ∷ 1 ∷ []) ++ drop 16 buffer.old) }
    ensures short { length buffer.old < 2048 → (result ≡ Err ShortBuffer) × (buffer.new ≡ buffer.old) }
{
    write(
        figures,
        &Message::MCommit {
            sender: 1,
            id: 65,
            timestamp: 1,
        },
        buffer,
    )
}
