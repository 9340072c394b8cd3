// What can be read of a catalogue and of its profiles.
ghost use Rattle.catalogue.specs.View.{profile_of};
ghost use Rattle.catalogue.specs.Whole.{catalogue_of};
ghost use Rattle.model.specs.Fits.{profile};
ghost use Rattle.records.specs.Find.{RowOf};
ghost use Rattle.std.specs.Prelude.{◌≡◌, ◌<◌, ◌≤◌, MatchOption};

use crate::catalogues::Catalogue;
use crate::profile::Profile;
use naming::Hash;
use records::{Generation, PathRecord, row_of};

impl Catalogue {
    // The number of the card's blocks.
    pub fn blocks(&self) -> u32
        ensures { result ≡ self.now.blocks }
    {
        self.blocks
    }

    // The paths in registration order.
    pub fn paths(&self) -> &[PathRecord]
        ensures { result.now ≡ self.now.paths.items }
    {
        self.paths.as_slice()
    }

    // The row of the path of this hash.
    pub fn row_of(&self, hash: &Hash) -> Option<usize>
        ensures { RowOf (catalogue_of self.now).paths hash.now.bytes result }
    {
        row_of(self.paths.as_slice(), hash)
    }

    // The three profiles.
    pub fn profiles(&self) -> &[Profile]
        ensures { result.now ≡ self.now.profiles }
    {
        &self.profiles
    }

    // The profile of this number, from 0 on, or none where there is no such profile.
    pub fn profile(&self, number: u8) -> Option<&Profile>
        ensures { MatchOption result (3 ≤ number) (λ f. (number < 3) × (profile_of f.now ≡ profile (catalogue_of self.now) number)) }
    {
        self.profiles.get(usize::from(number))
    }
}

impl Profile {
    // The generations, by rising number.
    pub fn generations(&self) -> &[Generation]
        ensures { result.now ≡ self.now.generations.items }
    {
        self.generations.as_slice()
    }

    // The number of the current generation, and 0 where there is none: an `Option` would have two values for none.
    pub fn current(&self) -> u32
        ensures { result ≡ self.now.current }
    {
        self.current
    }
}
