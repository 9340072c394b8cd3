// The newest generation of a profile, and the newest before another: where a rollback leads.
ghost use Rattle.std.specs.Prelude.{◌<◌, map, length};
ghost use Rattle.catalogue.specs.Whole.{catalogue_of};
ghost use Rattle.model.specs.Fits.{profile as profile_of_number};
ghost use Rattle.order.specs.Rows.{HasJust, Holds};
ghost use Rattle.queries.specs.Newest.{GreatestNumber, Newest, NewestBelow, number_at};
ghost use Rattle.records.specs.View.{generation_of};

use catalogue::Catalogue;
use order::{RowSet, greatest};
use records::{ByNumber, Generation, MOST_GENERATIONS};

// The places below 64 of the generations with numbers below this one. (Why its loop is not shared with `references_of` stands there.)
fn places_below(generations: &[Generation], number: u32) -> RowSet
    ensures { HasJust result (λ k. (k < length generations.now) × ((number_at (map generation_of generations.now) k < number) × (k < 64))) }
{
    let mut places = RowSet::empty();
    for (place, generation) in generations.iter().enumerate() {
        if generation.number < number {
            places.insert(place);
        }
    }
    places
}

// The greatest number in these places.
fn greatest_number(generations: &[Generation], places: RowSet) -> Option<u32>
    ensures { GreatestNumber (map generation_of generations.now) (Holds places) result }
{
    let place = greatest(&ByNumber, generations, places)?;
    Some(generations[place].number)
}

// The greatest number of a generation in the profile, or none where it has no generation.
pub fn newest(catalogue: &Catalogue, profile: u8) -> Option<u32>
    ensures { Newest (profile_of_number (catalogue_of catalogue.now) profile).generations result }
{
    let generations = catalogue.profile(profile)?.generations();
    greatest_number(generations, RowSet::below(MOST_GENERATIONS))
}

// The greatest number below `number` of a generation in the profile, or none where no number there is below it.
pub fn newest_below(catalogue: &Catalogue, profile: u8, number: u32) -> Option<u32>
    ensures { NewestBelow (profile_of_number (catalogue_of catalogue.now) profile).generations number result }
{
    let generations = catalogue.profile(profile)?.generations();
    greatest_number(generations, places_below(generations, number))
}
