// A catalogue kept in step with its journal: an entry is appended and applied, or neither; a card made new has an empty catalogue.
ghost use Rattle.journal.specs.Keeps.{AppendedApplied, FormattedCleared, Unwritten};
ghost use Rattle.records.specs.View.{entry_of};
ghost use Rattle.std.specs.Prelude.{◌≡◌};

use crate::appending::{AppendError, append};
use crate::formatting::{FormatError, format};
use crate::place::Place;
use catalogue::Catalogue;
use disk::{Disk, Fault};
use records::Entry;
use std::error::Error;
use std::fmt;

// Why an entry was not appended: it does not fit the catalogue, the journal's numbers are spent, or the disk failed.
#[derive(Clone, Copy, PartialEq, Eq, Debug)]
pub enum EntryError {
    Unfit,
    NumbersSpent,
    Failed(Fault),
}

impl fmt::Display for EntryError {
    ghost use Rattle.std.specs.Prelude.{Some};
    ghost use Rattle.journal.specs.Errors.{entry_error_text};

    ghost output = { λ error. Some (entry_error_text error) };

    fn fmt<W: fmt::Write>(&self, f: &mut fmt::Formatter<W>) -> fmt::Result {
        f.write_str(match self {
            EntryError::Unfit => "the entry does not fit the catalogue",
            EntryError::NumbersSpent => "the journal's numbers are spent",
            EntryError::Failed(_) => "the disk failed",
        })
    }
}

impl Error for EntryError {}

impl From<AppendError> for EntryError {
    ghost use Rattle.journal.specs.Keeps.{entry_error_of};

    ghost from_gives = { λ error e. e ≡ entry_error_of error };

    fn from(error: AppendError) -> EntryError {
        match error {
            AppendError::NumbersSpent => EntryError::NumbersSpent,
            AppendError::Failed(fault) => EntryError::Failed(fault),
        }
    }
}

// Appends the entry to the journal, applies it to the catalogue and moves the place on. A refusal leaves catalogue and place as they are.
pub fn append_and_apply<D: Disk>(
    disk: &mut D,
    catalogue: &mut Catalogue,
    place: &mut Place,
    entry: &Entry,
) -> Result<(), EntryError>
    ensures law { AppendedApplied (D.Disk.means disk.old) catalogue.old place.old (entry_of entry.now) result (D.Disk.means disk.new) catalogue.new place.new }
    ensures untouched { Unwritten result → disk.new ≡ disk.old }
{
    if !catalogue.fits(entry) {
        return Err(EntryError::Unfit);
    }
    append(disk, catalogue, place, entry)?;
    catalogue.apply(entry).unwrap();
    Ok(())
}

// Restarts the disk, makes its card new and empties the catalogue, if the disk has as many blocks as a card may have.
pub fn format_and_clear<D: Disk>(
    disk: &mut D,
    catalogue: &mut Catalogue,
) -> Result<Place, FormatError>
    ensures { FormattedCleared (D.Disk.means disk.old) catalogue.old result (D.Disk.means disk.new) catalogue.new }
{
    let place = format(disk)?;
    catalogue.clear(disk.size() as u32);
    Ok(place)
}
