// Whether a path may be removed.
ghost use Rattle.catalogue.specs.View.{catalogue_from, profile_of};
ghost use Rattle.model.specs.Fits.{Removable, any, names_path};
ghost use Rattle.std.specs.Prelude.{◌≡◌, map, Decides};

use crate::profile::Profile;
use naming::Hash;
use records::{PathRecord, is_named, is_registered, is_unneeded};

// Whether a generation of a profile names this hash.
fn is_generation(profiles: &[Profile], hash: &Hash) -> bool
    ensures { result ≡ any (λ f. names_path hash.now.bytes f.generations) (map profile_of profiles.now) }
{
    profiles
        .iter()
        .any(|profile| is_named(profile.generations.as_slice(), hash))
}

// Whether the path of this hash may be removed.
pub(crate) fn is_removable(paths: &[PathRecord], profiles: &[Profile], hash: &Hash) -> bool
    ensures { Decides result (Removable (catalogue_from paths.now profiles.now) hash.now.bytes) }
{
    is_registered(paths, hash) && !is_generation(profiles, hash) && is_unneeded(paths, hash)
}
