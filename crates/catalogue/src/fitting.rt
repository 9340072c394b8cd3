// Which entry fits the catalogue.
ghost use Rattle.std.specs.Prelude.{◌≡◌, Decides};
ghost use Rattle.catalogue.specs.View.{profile_of};
ghost use Rattle.catalogue.specs.Whole.{catalogue_of};
ghost use Rattle.model.specs.Fits.{Fits, has_number};
ghost use Rattle.model.specs.Plain as plain;
ghost use Rattle.records.specs.View.{entry_of};

use crate::catalogues::Catalogue;
use crate::profile::Profile;
use crate::removing::is_removable;
use naming::Hash;
use records::{Entry, is_committable, is_registrable, place_of};

// Whether a generation of this number is in the profile.
fn has_generation(profile: &Profile, number: u32) -> bool
    ensures { result ≡ has_number number (profile_of profile.now).generations }
{
    place_of(profile.generations.as_slice(), number).is_some()
}

impl Catalogue {
    // Whether a commit fits.
    fn commit_fits(&self, profile: u8, number: u32, hash: &Hash) -> bool
        ensures { Decides result (Fits self.now.blocks (catalogue_of self.now) (plain.commit profile number hash.now.bytes)) }
    {
        let paths = self.paths.as_slice();
        self.profile(profile).is_some_and(|found| {
            is_committable(paths, found.generations.as_slice(), number, hash)
        })
    }

    // Whether a switch fits.
    fn switch_fits(&self, profile: u8, number: u32) -> bool
        ensures { Decides result (Fits self.now.blocks (catalogue_of self.now) (plain.switch profile number)) }
    {
        self.profile(profile)
            .is_some_and(|found| has_generation(found, number))
    }

    // Whether a forget fits.
    fn forget_fits(&self, profile: u8, number: u32) -> bool
        ensures { Decides result (Fits self.now.blocks (catalogue_of self.now) (plain.forget profile number)) }
    {
        self.profile(profile).is_some_and(|found| has_generation(found, number)
            && found.current != number)
    }

    // Whether the entry fits.
    pub fn fits(&self, entry: &Entry) -> bool
        ensures { Decides result (Fits self.now.blocks (catalogue_of self.now) (entry_of entry.now)) }
    {
        let paths = self.paths.as_slice();
        match entry {
            Entry::Register(path) => is_registrable(self.blocks, paths, path),
            Entry::Commit {
                profile,
                number,
                hash,
            } => self.commit_fits(*profile, *number, hash),
            Entry::Switch { profile, number } => self.switch_fits(*profile, *number),
            Entry::Forget { profile, number } => self.forget_fits(*profile, *number),
            Entry::Remove(hash) => is_removable(paths, &self.profiles, hash),
        }
    }
}
