// What entries make of the catalogue. Profile and number stay two parameters: they are two fields of an entry, in the code and in the definitions.
ghost use Rattle.catalogue.specs.Applied.{Applied};
ghost use Rattle.catalogue.specs.Whole.{Becomes, catalogue_of};
ghost use Rattle.model.specs.Fits.{Fits};
ghost use Rattle.model.specs.Plain as plain;
ghost use Rattle.records.specs.View.{entry_of, path_of};
ghost use Rattle.std.specs.Prelude.{◌≡◌};

use crate::catalogues::Catalogue;
use naming::Hash;
use records::{Entry, Generation, PathRecord, row_of};
use std::error::Error;
use std::fmt;

impl Catalogue {
    fn register(&mut self, path: &PathRecord)
        requires { Fits self.old.blocks (catalogue_of self.old) (plain.register (path_of path.now)) }
        ensures { Becomes self.old (plain.register (path_of path.now)) self.new }
    {
        self.paths.push_reserved(*path);
    }

    fn commit(&mut self, profile: u8, number: u32, hash: &Hash)
        requires { Fits self.old.blocks (catalogue_of self.old) (plain.commit profile number hash.now.bytes) }
        ensures { Becomes self.old (plain.commit profile number hash.now.bytes) self.new }
    {
        self.profiles[profile as usize].add(Generation {
            number,
            hash: *hash,
        });
    }

    fn switch(&mut self, profile: u8, number: u32)
        requires { Fits self.old.blocks (catalogue_of self.old) (plain.switch profile number) }
        ensures { Becomes self.old (plain.switch profile number) self.new }
    {
        self.profiles[profile as usize].choose(number);
    }

    fn forget(&mut self, profile: u8, number: u32)
        requires { Fits self.old.blocks (catalogue_of self.old) (plain.forget profile number) }
        ensures { Becomes self.old (plain.forget profile number) self.new }
    {
        self.profiles[profile as usize].forget(number);
    }

    fn remove(&mut self, hash: &Hash)
        requires { Fits self.old.blocks (catalogue_of self.old) (plain.remove hash.now.bytes) }
        ensures { Becomes self.old (plain.remove hash.now.bytes) self.new }
    {
        if let Some(row) = row_of(self.paths.as_slice(), hash) {
            let _ = self.paths.remove(row);
        }
    }
}

// The entry does not fit the catalogue.
#[derive(Clone, Copy, PartialEq, Eq, Debug)]
pub struct Unfit;

impl fmt::Display for Unfit {
    ghost use Rattle.catalogue.specs.Applied.{unfit_text};
    ghost use Rattle.std.specs.Prelude.{Some};

    ghost output = { λ _. Some unfit_text };

    fn fmt<W: fmt::Write>(&self, f: &mut fmt::Formatter<W>) -> fmt::Result {
        f.write_str("the entry does not fit the catalogue")
    }
}

impl Error for Unfit {}

impl Catalogue {
    // Makes of the catalogue what the entry says, if it fits; else the catalogue stays as it is.
    pub fn apply(&mut self, entry: &Entry) -> Result<(), Unfit>
        ensures { Applied self.old (entry_of entry.now) result self.new }
    {
        if !self.fits(entry) {
            return Err(Unfit);
        }
        match entry {
            Entry::Register(path) => self.register(path),
            Entry::Commit {
                profile,
                number,
                hash,
            } => self.commit(*profile, *number, hash),
            Entry::Switch { profile, number } => self.switch(*profile, *number),
            Entry::Forget { profile, number } => self.forget(*profile, *number),
            Entry::Remove(hash) => self.remove(hash),
        }
        Ok(())
    }
}
