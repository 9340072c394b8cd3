// Whether a path may be registered.
ghost use Rattle.std.specs.Prelude.{◌≡◌, ℕ, ◌+◌, ◌<◌, map, Decides};
ghost use Rattle.model.specs.Fits.{Climbing, InData, Registrable};
ghost use Rattle.model.specs.Plain.{run};
ghost use Rattle.records.specs.Runs.{ApartFromAll, KnownAll};
ghost use Rattle.records.specs.View.{bytes_of, path_of};

use crate::lookups::is_registered;
use crate::records::PathRecord;
use naming::Hash;

// The most paths that are registered, and the most bytes of a content.
pub const MOST_PATHS: usize = 40;

const MOST_BYTES: u32 = 16384;

// Whether the hashes are all different and in hash order.
fn is_climbing(hashes: &[Hash]) -> bool
    ensures { Decides result (Climbing (map bytes_of hashes.now)) }
{
    hashes.is_sorted_by(|a, b| a < b)
}

// Whether the run of the path lies in the data and meets no registered one.
fn has_place(blocks: u32, paths: &[PathRecord], path: &PathRecord) -> bool
    ensures { Decides result (InData blocks (run (path_of path.now)) × ApartFromAll (map path_of paths.now) (path_of path.now)) }
{
    let run = path.run();
    run.is_placed(blocks) && !paths.iter().any(|other| run.meets(&other.run()))
}

// Whether the references are in order, and each leads to one of the paths or to the path itself.
fn has_references(paths: &[PathRecord], path: &PathRecord) -> bool
    ensures { Decides result (Climbing (path_of path.now).refs × KnownAll (map path_of paths.now) (path_of path.now)) }
{
    let hashes = path.refs.as_slice();
    is_climbing(hashes)
        && hashes
            .iter()
            .all(|hash| is_registered(paths, hash) || path.hash == *hash)
}

// Whether the path may be registered after these ones.
pub fn is_registrable(blocks: u32, paths: &[PathRecord], path: &PathRecord) -> bool
    ensures { Decides result (Registrable blocks (map path_of paths.now) (path_of path.now)) }
{
    !is_registered(paths, &path.hash)
        && paths.len() < MOST_PATHS
        && path.size <= MOST_BYTES
        && has_place(blocks, paths, path)
        && has_references(paths, path)
}
