// The journal read back: what the entries on a card make.
// Disk and catalogue stay two parameters: a struct that lends both would owe in each contract that it still lends the same ones.
ghost use Rattle.std.specs.Prelude.{◌≡◌, ℕ, MatchOption, is_ok};
ghost use Rattle.card.specs.Label.{InRange};
ghost use Rattle.card.specs.View.{half_of};
ghost use Rattle.journal.specs.Steps.{CardSized};
ghost use Rattle.journal.specs.View.{SlotAt};
ghost use Rattle.recovery.specs.Loaded.{EntriesRead, HalfRead, LabelRead, Loaded, PositionRead, Took};
ghost use Rattle.recovery.specs.Recovers.{BackedLoads};

use card::{Label, card_size, counts, decode_entry, decode_label};
use catalogue::{Catalogue, Unfit};
use disk::{Disk, Fault};
use journal::{Place, Side, Slot};
use std::error::Error;
use std::fmt;

// Why a card was not loaded: the disk is dark; its number of blocks is none that a card has; the label's mark or a field is wrong; or the entry in
// this block does not fit, or does not count although the half began with it.
#[derive(Clone, Copy, PartialEq, Eq, Debug)]
pub enum LoadError {
    Dark,
    WrongSize,
    BadLabel,
    BadEntry(u32),
}

impl fmt::Display for LoadError {
    ghost use Rattle.std.specs.Prelude.{Some};
    ghost use Rattle.recovery.specs.Errors.{load_error_text};

    ghost output = { λ error. Some (load_error_text error) };

    fn fmt<W: fmt::Write>(&self, f: &mut fmt::Formatter<W>) -> fmt::Result {
        match self {
            LoadError::Dark => write!(f, "the disk has no power"),
            LoadError::WrongSize => write!(f, "no card has as many blocks"),
            LoadError::BadLabel => write!(f, "the label is wrong"),
            LoadError::BadEntry(block) => write!(f, "the entry in block {block} is wrong"),
        }
    }
}

impl Error for LoadError {}

impl From<Fault> for LoadError {
    ghost use Rattle.recovery.specs.Loaded.{load_error_of};
    ghost use Rattle.std.specs.Prelude.{◌≡◌};

    ghost from_gives = { λ fault error. error ≡ load_error_of fault };

    fn from(fault: Fault) -> LoadError {
        match fault {
            Fault::Dark => LoadError::Dark,
            Fault::NoBlock => LoadError::WrongSize,
        }
    }
}

// Applies the entry that the block says, if it says one that fits.
fn take_entry(catalogue: &mut Catalogue, block: &[u8; 256]) -> Result<(), Unfit>
    ensures { Took catalogue.old block.now (is_ok result) catalogue.new }
{
    let entry = decode_entry(block).ok_or(Unfit)?;
    catalogue.apply(&entry)
}

// Reads the entry that stands there and applies it, if it counts; answers whether it does.
fn read_slot<D: Disk>(disk: &D, catalogue: &mut Catalogue, slot: &Slot) -> Result<bool, LoadError>
    ensures { (p : Place) (i : ℕ) → SlotAt p i slot.now → PositionRead (D.Disk.means disk.now) p i catalogue.old result catalogue.new }
{
    let mut block = [0; 256];
    disk.read(u64::from(slot.block), &mut block)?;
    if !counts(&block, slot.number, slot.back) {
        return Ok(false);
    }
    take_entry(catalogue, &block).map_err(|_| LoadError::BadEntry(slot.block))?;
    Ok(true)
}

// Reads the entries of the half in order and applies them, until one does not count; answers how many there are.
fn read_entries<D: Disk>(disk: &D, catalogue: &mut Catalogue, at: &Place) -> Result<u32, LoadError>
    ensures { EntriesRead (D.Disk.means disk.now) at.now catalogue.old result catalogue.new }
{
    for position in 0..64 {
        let slot = at.slot(position).unwrap();
        if !read_slot(disk, catalogue, &slot)? {
            return Ok(position);
        }
    }
    Ok(64)
}

// Reads the label of a card of that many blocks.
fn read_label<D: Disk>(disk: &D, blocks: u32) -> Result<Label, LoadError>
    ensures { LabelRead (D.Disk.means disk.now) blocks result }
{
    let mut block = [0; 256];
    disk.read(0, &mut block)?;
    decode_label(&block, blocks).ok_or(LoadError::BadLabel)
}

// Reads the half that the label names.
fn read_half<D: Disk>(
    disk: &D,
    catalogue: &mut Catalogue,
    label: &Label,
) -> Result<Place, LoadError>
    requires { InRange (half_of label.now) }
    ensures { HalfRead (D.Disk.means disk.now) label.now catalogue.old result catalogue.new }
{
    let mut place = Place {
        side: Side::starting_at(label.first_block).unwrap(),
        first: label.first_number,
        used: 0,
    };
    let used = read_entries(disk, catalogue, &place)?;
    if used < label.count {
        return Err(LoadError::BadEntry(place.slot(used).unwrap().block));
    }
    place.used = used;
    Ok(place)
}

// How many blocks the card has, or none where the disk has a number of them that no card has.
fn card_blocks<D: Disk>(disk: &D) -> Option<u32>
    ensures { MatchOption result (CardSized (D.Disk.means disk.now) → ⊥) (λ n. CardSized (D.Disk.means disk.now) × (n ≡ (D.Disk.means disk.now).blocks)) }
{
    card_size(disk.size())
}

// Reads the label and the journal of a card into the catalogue, whatever was in it, and writes nothing.
pub fn load<D: Disk>(disk: &D, catalogue: &mut Catalogue) -> Result<Place, LoadError>
    ensures card { Loaded (D.Disk.means disk.now) catalogue.old result catalogue.new }
    ensures backed { BackedLoads (D.Disk.means disk.now) result catalogue.new }
{
    let blocks = card_blocks(disk).ok_or(LoadError::WrongSize)?;
    let label = read_label(disk, blocks)?;
    catalogue.clear(blocks);
    read_half(disk, catalogue, &label)
}
