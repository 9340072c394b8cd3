// A run of entries on a disk, to its end or to the cut, and what is found then.
// The calls are the plain ones, one after the other; `cut_cases` tries those that keep a catalogue in step. Its script and its comparison are like these: shared,
// they would make `tallies`, which counts for any run, stand on the catalogue for a few lines.
use catalogue::Catalogue;
use disk::Disk;
use journal::{append, format};
use records::{Entry, PathRecord};
use recovery::load;
use std::alloc::{AllocError, Global};
use tallies::{BLOCKS, ENTRIES, Ending};

// The entries: a path, two generations of it, and then switches from one to the other. (The halves change at 64, and then after every sixty.)
fn entry_at(place: u32, path: &PathRecord) -> Entry {
    match place {
        0 => Entry::Register(*path),
        1 | 2 => Entry::Commit {
            profile: 0,
            number: place,
            hash: path.hash,
        },
        _ => Entry::Switch {
            profile: 0,
            number: place % 2 + 1,
        },
    }
}

// What a restart finds after the cut in the entry in this place.
fn found_after<D: Disk>(
    heap: Global,
    disk: &mut D,
    catalogue: &mut Catalogue,
    place: u32,
    entry: &Entry,
) -> Result<Ending, AllocError> {
    disk.restart();
    let mut found = Catalogue::new(heap, BLOCKS as u32)?;
    if load(disk, &mut found).is_err() {
        return Ok(Ending::Neither);
    }
    if found == *catalogue {
        return Ok(Ending::Before(place));
    }
    let _ = catalogue.apply(entry);
    if found == *catalogue {
        return Ok(Ending::After(place));
    }
    Ok(Ending::Neither)
}

// Formats the disk and appends the entries.
pub(crate) fn try_entries<D: Disk>(
    heap: Global,
    disk: &mut D,
    path: &PathRecord,
) -> anyhow::Result<Ending> {
    let mut catalogue = Catalogue::new(heap, BLOCKS as u32)?;
    // A format that failed is no error here, but what the run ended in.
    let Ok(mut at) = format(disk) else {
        return Ok(Ending::InFormat);
    };
    for place in 0..ENTRIES {
        let entry = entry_at(place, path);
        if append(disk, &catalogue, &mut at, &entry).is_err() {
            return Ok(found_after(heap, disk, &mut catalogue, place, &entry)?);
        }
        let _ = catalogue.apply(&entry);
    }
    Ok(Ending::Uncut)
}
