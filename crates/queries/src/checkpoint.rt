// The checkpoint: the entries that make the catalogue again, one by one.
ghost use Rattle.std.specs.Prelude.{◌≡◌, ℕ, ◌<◌, ◌≤◌, map, length, Some};
ghost use Rattle.catalogue.specs.View.{profile_of};
ghost use Rattle.catalogue.specs.Whole.{catalogue_of};
ghost use Rattle.model.specs.Listing.{listing, profile_listing, profiles_listing};
ghost use Rattle.records.specs.View.{entry_of};
ghost use Rattle.std.specs.List.{slice_get};
ghost use Rattle.std.specs.Option.{option_map};

use catalogue::{Catalogue, Profile};
use records::Entry;

// How many entries make a profile: one for each generation, and one for the current of them.
fn profile_len(profile: &Profile) -> usize
    ensures { (p : ℕ) → length (profile_listing p (profile_of profile.now)) ≡ result }
{
    let count = profile.generations().len();
    if count == 0 { 0 } else { count + 1 }
}

// The entry in this place of those that make the profile of this number.
fn profile_entry(number: u8, profile: &Profile, place: usize) -> Entry
    requires { place < length (profile_listing number (profile_of profile.now)) }
    ensures { Some (entry_of result) ≡ slice_get (profile_listing number (profile_of profile.now)) place }
{
    match profile.generations().get(place) {
        Some(generation) => Entry::Commit {
            profile: number,
            number: generation.number,
            hash: generation.hash,
        },
        None => Entry::Switch {
            profile: number,
            number: profile.current(),
        },
    }
}

// The entry in this place of those that make the profiles. What is left of the place is counted down: `flat_map` and `nth` would ask for an iterator over
// the entries of one profile, and be no plainer.
fn profiles_entry(profiles: &[Profile], place: usize) -> Option<Entry>
    requires { length profiles.now ≤ 256 }
    ensures { option_map entry_of result ≡ slice_get (profiles_listing 0 (map profile_of profiles.now)) place }
{
    let mut left = place;
    for (number, profile) in profiles.iter().enumerate() {
        let count = profile_len(profile);
        if left < count {
            return Some(profile_entry(number as u8, profile, left));
        }
        left -= count;
    }
    None
}

// The entry in this place of the listing, or none past its end.
pub fn listing_entry(catalogue: &Catalogue, place: usize) -> Option<Entry>
    ensures { option_map entry_of result ≡ slice_get (listing (catalogue_of catalogue.now)) place }
{
    let paths = catalogue.paths();
    match paths.get(place) {
        Some(path) => Some(Entry::Register(*path)),
        None => profiles_entry(catalogue.profiles(), place - paths.len()),
    }
}

// How many entries the listing has: at most 61, of 40 paths, and of six generations and a switch for each of three profiles.
pub fn listing_len(catalogue: &Catalogue) -> usize
    ensures value { result ≡ length (listing (catalogue_of catalogue.now)) }
    ensures bound { result ≤ 61 }
{
    let of_profiles: usize = catalogue.profiles().iter().map(profile_len).sum();
    catalogue.paths().len() + of_profiles
}
