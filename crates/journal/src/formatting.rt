// A card made new: an empty journal in the lower half.
ghost use Rattle.std.specs.Prelude.{◌≡◌};
ghost use Rattle.journal.specs.Formats.{Formatted, LaidOut};

use crate::appending::put_label;
use crate::place::{Place, Side};
use crate::putting::{clear_halves, put};
use card::card_size;
use disk::{Disk, Fault};
use std::error::Error;
use std::fmt;

// Why a card was not formatted: its number of blocks is none that a card has, or the disk failed.
#[derive(Clone, Copy, PartialEq, Eq, Debug)]
pub enum FormatError {
    WrongSize,
    Failed(Fault),
}

impl fmt::Display for FormatError {
    ghost use Rattle.std.specs.Prelude.{Some};
    ghost use Rattle.journal.specs.Errors.{format_error_text};

    ghost output = { λ error. Some (format_error_text error) };

    fn fmt<W: fmt::Write>(&self, f: &mut fmt::Formatter<W>) -> fmt::Result {
        f.write_str(match self {
            FormatError::WrongSize => "no card has as many blocks",
            FormatError::Failed(_) => "the disk failed",
        })
    }
}

impl Error for FormatError {}

impl From<Fault> for FormatError {
    ghost use Rattle.journal.specs.declared.formatting.FormatError.TheVariants.{Failed};

    ghost from_gives = { λ fault error. error ≡ Failed fault };

    fn from(fault: Fault) -> FormatError {
        FormatError::Failed(fault)
    }
}

// Clears the label, then both halves, then writes a label for the lower half, each stage settled before the next.
fn lay_out<D: Disk>(disk: &mut D, blocks: u32) -> Result<Place, Fault>
    ensures { LaidOut (D.Disk.means disk.old) blocks result (D.Disk.means disk.new) }
{
    put(disk, 0, &[0; 256])?;
    clear_halves(disk)?;
    let place = Place {
        side: Side::Lower,
        first: 1,
        used: 0,
    };
    put_label(disk, blocks, &place, 0)?;
    Ok(place)
}

// Restarts the disk and makes its card new, if it has as many blocks as a card may have.
pub fn format<D: Disk>(disk: &mut D) -> Result<Place, FormatError>
    ensures { Formatted (D.Disk.means disk.old) result (D.Disk.means disk.new) }
{
    disk.restart();
    let blocks = card_size(disk.size()).ok_or(FormatError::WrongSize)?;
    Ok(lay_out(disk, blocks)?)
}
