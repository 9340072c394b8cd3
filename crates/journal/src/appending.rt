// Entries appended to the journal, with the change of halves where the half in use is full.
// Disk and place stay two parameters: a struct that lends the disk would owe in each contract that it still lends the same one, at the same place.
ghost use Rattle.std.specs.Prelude.{◌≡◌, ℕ, ◌+◌, ◌-◌, ◌^◌, ◌<◌, ◌≤◌, IfOk};
ghost use Rattle.catalogue.specs.Whole.{catalogue_of};
ghost use Rattle.journal.specs.Appends.{Appended, Appends, Changed, Enters, EntryPut, LabelPut, ListingPut};
ghost use Rattle.journal.specs.View.{SlotAt};
ghost use Rattle.records.specs.View.{entry_of};

use crate::place::{Place, Slot};
use crate::putting::put;
use card::{Label, encode_entry, encode_label};
use catalogue::Catalogue;
use disk::{Disk, Fault};
use queries::{listing_entry, listing_len};
use records::Entry;
use std::error::Error;
use std::fmt;

// The greatest number of an entry that may still be appended: a change of halves after it leaves room below the label's limit.
const LAST_NUMBER: u64 = (1 << 62) - 128;

// Why an entry was not appended: the journal's numbers are spent, or the disk failed.
#[derive(Clone, Copy, PartialEq, Eq, Debug)]
pub enum AppendError {
    NumbersSpent,
    Failed(Fault),
}

impl fmt::Display for AppendError {
    ghost use Rattle.std.specs.Prelude.{Some};
    ghost use Rattle.journal.specs.Errors.{append_error_text};

    ghost output = { λ error. Some (append_error_text error) };

    fn fmt<W: fmt::Write>(&self, f: &mut fmt::Formatter<W>) -> fmt::Result {
        f.write_str(match self {
            AppendError::NumbersSpent => "the journal's numbers are spent",
            AppendError::Failed(_) => "the disk failed",
        })
    }
}

impl Error for AppendError {}

impl From<Fault> for AppendError {
    ghost use Rattle.journal.specs.declared.appending.AppendError.TheVariants.{Failed};

    ghost from_gives = { λ fault error. error ≡ Failed fault };

    fn from(fault: Fault) -> AppendError {
        AppendError::Failed(fault)
    }
}

// Writes the entry to where one stands and settles it.
fn put_entry<D: Disk>(disk: &mut D, slot: &Slot, entry: &Entry) -> Result<(), Fault>
    ensures { (p : Place) (i : ℕ) → SlotAt p i slot.now → EntryPut (D.Disk.means disk.old) p i (entry_of entry.now) result (D.Disk.means disk.new) }
{
    let block = encode_entry(entry, slot.number, slot.back);
    put(disk, u64::from(slot.block), &block)
}

// Writes the listing of the catalogue to the half, entry by entry, each one settled before the next, and answers how many there are. The listing is no slice:
// each entry is asked for by its place.
fn put_listing<D: Disk>(disk: &mut D, catalogue: &Catalogue, at: &Place) -> Result<u32, Fault>
    ensures few { IfOk result (λ k. k ≤ 61) }
    ensures law { ListingPut (D.Disk.means disk.old) (catalogue_of catalogue.now) at.now result (D.Disk.means disk.new) }
{
    let count = listing_len(catalogue) as u32;
    for place in 0..count {
        let slot = at.slot(place).unwrap();
        let entry = listing_entry(catalogue, place as usize).unwrap();
        put_entry(disk, &slot, &entry)?;
    }
    Ok(count)
}

// Writes the label that names the half and settles it.
pub(crate) fn put_label<D: Disk>(
    disk: &mut D,
    blocks: u32,
    at: &Place,
    count: u32,
) -> Result<(), Fault>
    ensures { LabelPut (D.Disk.means disk.old) blocks at.now count result (D.Disk.means disk.new) }
{
    let label = Label {
        count,
        first_number: at.first,
        first_block: at.side.start(),
    };
    put(disk, 0, &encode_label(&label, blocks))
}

// Begins the other half with the catalogue's listing, numbered on from the last, and names it by the label.
fn change_halves<D: Disk>(disk: &mut D, catalogue: &Catalogue, at: &Place) -> Result<Place, Fault>
    requires { at.now.first + 64 ≤ 2 ^ 62 }
    ensures few { IfOk result (λ p. p.used ≤ 61) }
    ensures law { Changed (D.Disk.means disk.old) catalogue.now at.now result (D.Disk.means disk.new) }
{
    let mut next = Place {
        side: at.side.other(),
        first: at.first + 64,
        used: 0,
    };
    let count = put_listing(disk, catalogue, &next)?;
    put_label(disk, catalogue.blocks(), &next, count)?;
    next.used = count;
    Ok(next)
}

// Writes the entry to the next position of a half with room: `append_at` has changed a full one first.
fn enter<D: Disk>(disk: &mut D, at: &Place, entry: &Entry) -> Result<Place, Fault>
    requires { at.now.used < 64 }
    ensures { Enters (D.Disk.means disk.old) at.now (entry_of entry.now) result (D.Disk.means disk.new) }
{
    let slot = at.slot(at.used).unwrap();
    put_entry(disk, &slot, entry)?;
    let mut next = *at;
    next.used += 1;
    Ok(next)
}

// Writes the entry to the next position of the journal, which first changes halves where the half in use is full.
fn append_at<D: Disk>(
    disk: &mut D,
    catalogue: &Catalogue,
    at: &Place,
    entry: &Entry,
) -> Result<Place, Fault>
    requires { at.now.first + at.now.used ≤ 2 ^ 62 - 128 }
    ensures { Appends (D.Disk.means disk.old) catalogue.now at.now (entry_of entry.now) result (D.Disk.means disk.new) }
{
    if at.used < 64 {
        return enter(disk, at, entry);
    }
    let next = change_halves(disk, catalogue, at)?;
    enter(disk, &next, entry)
}

// Appends the entry to the journal of the catalogue and moves the place on. A failure leaves the place as it is.
pub fn append<D: Disk>(
    disk: &mut D,
    catalogue: &Catalogue,
    place: &mut Place,
    entry: &Entry,
) -> Result<(), AppendError>
    ensures law { Appended (D.Disk.means disk.old) catalogue.now place.old (entry_of entry.now) result (D.Disk.means disk.new) place.new }
    ensures untouched { result ≡ Err AppendError.NumbersSpent → disk.new ≡ disk.old }
{
    if place.next_number() > LAST_NUMBER {
        return Err(AppendError::NumbersSpent);
    }
    *place = append_at(disk, catalogue, place, entry)?;
    Ok(())
}
