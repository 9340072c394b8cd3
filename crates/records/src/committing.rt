// Whether a profile may have one more generation.
ghost use Rattle.std.specs.Prelude.{◌≡◌, map, Decides};
ghost use Rattle.model.specs.Fits.{Committable};
ghost use Rattle.records.specs.Orders.{Above};
ghost use Rattle.records.specs.View.{generation_of, path_of};

use crate::lookups::is_registered;
use crate::records::{Generation, PathRecord};
use naming::Hash;

// The most generations of a profile, and the greatest number of one.
pub const MOST_GENERATIONS: usize = 6;

const MOST_NUMBER: u32 = 999999;

// Whether a number is above those of all generations.
fn is_above(generations: &[Generation], number: u32) -> bool
    ensures { Decides result (Above (map generation_of generations.now) number) }
{
    generations
        .iter()
        .all(|generation| generation.number < number)
}

// Whether a generation of this number, which names this hash, may follow these ones.
pub fn is_committable(
    paths: &[PathRecord],
    generations: &[Generation],
    number: u32,
    hash: &Hash,
) -> bool
    ensures { Decides result (Committable (map path_of paths.now) (map generation_of generations.now) (record { number = number; path = hash.now.bytes })) }
{
    generations.len() < MOST_GENERATIONS
        && number <= MOST_NUMBER
        && is_registered(paths, hash)
        && is_above(generations, number)
}
