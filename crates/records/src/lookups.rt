// How paths, references and generations are looked up.
ghost use Rattle.model.specs.Fits.{has_hash, names_path, refers};
ghost use Rattle.records.specs.Find.{PlaceOf, RowOf};
ghost use Rattle.records.specs.Needed.{Unneeded};
ghost use Rattle.records.specs.View.{generation_of, path_of};
ghost use Rattle.std.specs.Prelude.{◌≡◌, map, Decides};

use crate::records::{Generation, PathRecord};
use naming::Hash;

// The row of the path of this hash.
pub fn row_of(paths: &[PathRecord], hash: &Hash) -> Option<usize>
    ensures { RowOf (map path_of paths.now) hash.now.bytes result }
{
    paths.iter().position(|path| path.hash == *hash)
}

// Whether a path of this hash is registered.
pub fn is_registered(paths: &[PathRecord], hash: &Hash) -> bool
    ensures { result ≡ has_hash hash.now.bytes (map path_of paths.now) }
{
    row_of(paths, hash).is_some()
}

// The place of the generation of this number.
pub fn place_of(generations: &[Generation], number: u32) -> Option<usize>
    ensures { PlaceOf (map generation_of generations.now) number result }
{
    generations
        .iter()
        .position(|generation| generation.number == number)
}

// Whether a generation names this hash.
pub fn is_named(generations: &[Generation], hash: &Hash) -> bool
    ensures { result ≡ names_path hash.now.bytes (map generation_of generations.now) }
{
    generations
        .iter()
        .any(|generation| generation.hash == *hash)
}

// Whether no path but that of this hash refers to it.
pub fn is_unneeded(paths: &[PathRecord], hash: &Hash) -> bool
    ensures { Decides result (Unneeded (map path_of paths.now) hash.now.bytes) }
{
    !paths
        .iter()
        .any(|path| path.refers_to(hash) && path.hash != *hash)
}

impl PathRecord {
    // Whether the path refers to this hash.
    pub fn refers_to(&self, hash: &Hash) -> bool
        ensures { result ≡ refers (path_of self.now) hash.now.bytes }
    {
        self.refs.as_slice().contains(hash)
    }
}
