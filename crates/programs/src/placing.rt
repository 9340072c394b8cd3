// Programs as paths of a card.
ghost use Rattle.programs.specs.Placed.{IsOf, Placed};

use crate::Program;
use catalogue::Catalogue;
use naming::Hash;
use queries::free_run;
use records::{PathRecord, References};

impl Program {
    // The record of the program, with its content in the last free run of the card; none where there is no room, or where it refers to more than eight.
    pub fn placed(&self, catalogue: &Catalogue, size: u32, needed: &[Hash]) -> Option<PathRecord>
        ensures { Placed catalogue.now self.now size needed.now result }
    {
        Some(PathRecord {
            hash: self.hash,
            name: self.name,
            size,
            first: free_run(catalogue, &[], size.div_ceil(256))?,
            refs: References::from_slice(needed).ok()?,
        })
    }
}

impl From<PathRecord> for Program {
    ghost from_gives = { IsOf };

    fn from(path: PathRecord) -> Program {
        Program {
            hash: path.hash,
            name: path.name,
        }
    }
}
