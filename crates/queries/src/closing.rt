// Closures: the rows of all that a path needs.
ghost use Rattle.std.specs.Prelude.{◌<◌, map};
ghost use Rattle.catalogue.specs.Whole.{catalogue_of};
ghost use Rattle.order.specs.Rows.{HasJust};
ghost use Rattle.queries.specs.Reach.{Leads, Needs};
ghost use Rattle.records.specs.View.{path_of};

use catalogue::Catalogue;
use order::RowSet;
use records::PathRecord;

// The rows below 64 to which the path in this row refers. The loop is not shared with `places_below`: of a test that is handed in as a closure the contract
// would have to say for each row that it answered so, and be no plainer than the two.
fn references_of(paths: &[PathRecord], row: usize) -> RowSet
    ensures { HasJust result (λ k. Leads (map path_of paths.now) row k × (k < 64)) }
{
    let mut rows = RowSet::empty();
    let Some(from) = paths.get(row) else {
        return rows;
    };
    for (place, path) in paths.iter().enumerate() {
        if from.refers_to(&path.hash) {
            rows.insert(place);
        }
    }
    rows
}

// The rows to which the path in this row refers.
pub fn references(catalogue: &Catalogue, row: usize) -> RowSet
    ensures { HasJust result (Leads (catalogue_of catalogue.now).paths row) }
{
    references_of(catalogue.paths(), row)
}

// The rows of all that the path in this row needs, itself too. References lead to earlier rows or to the path itself, so one
// walk from the last row down meets every member before those that it refers to.
pub fn closure(catalogue: &Catalogue, row: usize) -> RowSet
    ensures { HasJust result (Needs (catalogue_of catalogue.now).paths row) }
{
    let count = catalogue.paths().len();
    let mut members = RowSet::empty();
    if row >= count {
        return members;
    }
    members.insert(row);
    for place in (0..count).rev() {
        if members.contains(place) {
            members = members.union(references(catalogue, place));
        }
    }
    members
}
