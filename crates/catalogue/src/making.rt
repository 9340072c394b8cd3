// A catalogue with nothing in it.
ghost use Rattle.catalogue.specs.View.{profile_of};
ghost use Rattle.catalogue.specs.Whole.{catalogue_of};
ghost use Rattle.model.specs.Plain.{nothing};
ghost use Rattle.std.specs.Prelude.{◌≡◌, map, length, IfOk};

use crate::catalogues::Catalogue;
use crate::profile::Profile;
use records::MOST_PATHS;
use std::alloc::{AllocError, Global};

// Three profiles without generations.
fn unused_profiles(heap: Global) -> Result<[Profile; 3], AllocError>
    ensures { IfOk result (λ fs. map profile_of fs ≡ nothing.profiles) }
{
    Ok([
        Profile::new(heap)?,
        Profile::new(heap)?,
        Profile::new(heap)?,
    ])
}

// Takes all generations out of three profiles.
fn clear_profiles(profiles: &mut [Profile; 3])
    ensures { map profile_of profiles.new ≡ nothing.profiles }
{
    for profile in profiles {
        profile.clear();
    }
}

impl Catalogue {
    // The catalogue of a card of `blocks` blocks with nothing in it, with room for all that it may ever hold.
    pub fn new(heap: Global, blocks: u32) -> Result<Catalogue, AllocError>
        ensures { IfOk result (λ c. (catalogue_of c ≡ nothing) × (c.blocks ≡ blocks)) }
    {
        let paths = Vec::with_capacity(heap, MOST_PATHS)?;
        let profiles = unused_profiles(heap)?;
        Ok(Catalogue {
            blocks,
            paths,
            profiles,
        })
    }

    // Empties the catalogue, which is from now on that of a card of `blocks` blocks. The reserved room stays.
    pub fn clear(&mut self, blocks: u32)
        ensures { (catalogue_of self.new ≡ nothing) × (self.new.blocks ≡ blocks) }
    {
        self.blocks = blocks;
        self.paths.clear();
        clear_profiles(&mut self.profiles);
    }
}
