// What commits, switches and forgets do to a profile.
ghost use Rattle.std.specs.Prelude.{◌≡◌, ◌<◌, [], ◌∷◌, ◌++◌, IfOk, vec_len, vec_capacity, nat_eq};
ghost use Rattle.catalogue.specs.Change.{Taken};
ghost use Rattle.catalogue.specs.View.{profile_of};
ghost use Rattle.model.specs.Plain as plain;
ghost use Rattle.records.specs.View.{generation_of};

use crate::profile::Profile;
use records::{Generation, MOST_GENERATIONS, place_of};
use std::alloc::{AllocError, Global};

impl Profile {
    // A profile without generations, with room for all that it may ever have.
    pub(crate) fn new(heap: Global) -> Result<Profile, AllocError>
        ensures { IfOk result (λ f. profile_of f ≡ plain.unused) }
    {
        let generations = Vec::with_capacity(heap, MOST_GENERATIONS)?;
        Ok(Profile {
            generations,
            current: 0,
        })
    }

    // Takes all generations out; the reserved room stays.
    pub(crate) fn clear(&mut self)
        ensures { profile_of self.new ≡ plain.unused }
    {
        self.generations.clear();
        self.current = 0;
    }

    // Adds a generation, which becomes current.
    pub(crate) fn add(&mut self, generation: Generation)
        requires { vec_len self.old.generations < 6 }
        ensures { profile_of self.new ≡ record { generations = (profile_of self.old).generations ++ (generation_of generation ∷ []); current = generation.number } }
    {
        self.current = generation.number;
        self.generations.push_reserved(generation);
    }

    // Makes the generation of this number current.
    pub(crate) fn choose(&mut self, number: u32)
        ensures { profile_of self.new ≡ record { generations = (profile_of self.old).generations; current = number } }
    {
        self.current = number;
    }

    // Takes the generation of this number out.
    pub(crate) fn forget(&mut self, number: u32)
        ensures gone { Taken (λ g. nat_eq g.number number) plain.no_generation (profile_of self.old).generations (profile_of self.new).generations }
        ensures same { self.new.current ≡ self.old.current }
    {
        if let Some(place) = place_of(self.generations.as_slice(), number) {
            let _ = self.generations.remove(place);
        }
    }
}
