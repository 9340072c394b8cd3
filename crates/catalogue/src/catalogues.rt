// The catalogue, with its invariant.
ghost use Rattle.std.specs.Prelude.{◌≡◌, ◌≤◌, length, vec_capacity};
ghost use Rattle.catalogue.specs.View.{catalogue_from};
ghost use Rattle.model.specs.Fits.{Sound};

use crate::profile::Profile;
use records::PathRecord;

// What a card of `blocks` blocks holds: the paths in registration order, and the profiles.
#[derive(PartialEq, Eq, Debug, Drop)]
pub struct Catalogue {
    pub(crate) blocks: u32,
    pub(crate) paths: Vec<PathRecord>,
    pub(crate) profiles: [Profile; 3],
    ghost room: { 40 ≤ vec_capacity paths },
    ghost three: { length profiles ≡ 3 },
    ghost sound: { ∥ Sound blocks (catalogue_from paths.items profiles) ∥₁ },
}
