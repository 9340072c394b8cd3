// Where a new content may lie: the free run with the greatest first block.
ghost use Rattle.catalogue.specs.Whole.{catalogue_of};
ghost use Rattle.queries.specs.Room.{FreeRun, Met, taken_by};
ghost use Rattle.records.specs.Runs.{meets, span_of};
ghost use Rattle.records.specs.View.{path_of};
ghost use Rattle.std.specs.Prelude.{◌≡◌, map};

use catalogue::Catalogue;
use records::{DATA, PathRecord, Run};

// One of the taken runs that shares a block with this one.
fn met(paths: &[PathRecord], building: &[Run], run: Run) -> Option<Run>
    ensures { Met (taken_by (map path_of paths.now) building.now) (span_of run) result }
{
    let of_paths = paths
        .iter()
        .map(|path| path.run())
        .find(|taken| run.meets(taken));
    if of_paths.is_some() {
        return of_paths;
    }
    building.iter().copied().find(|taken| run.meets(taken))
}

// The first block of the last free run of `count` blocks, where those in `building` are taken too.
pub fn free_run(catalogue: &Catalogue, building: &[Run], count: u32) -> Option<u32>
    ensures { FreeRun catalogue.now.blocks (taken_by (catalogue_of catalogue.now).paths building.now) count result }
{
    if count == 0 {
        return Some(0);
    }
    let mut end = catalogue.blocks();
    while DATA + u64::from(count) <= u64::from(end) {
        let first = end - count;
        match met(catalogue.paths(), building, Run { first, count }) {
            None => return Some(first),
            Some(taken) => end = taken.first,
        }
    }
    None
}
