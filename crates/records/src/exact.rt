// Records and entries whose `==` tells any two values apart.
ghost use Rattle.records.specs.Laws.{exact_entry, exact_generation, exact_path, exact_references, exact_run};
ghost use Rattle.std.proofs.Common.{rules};

use crate::records::{Entry, Generation, PathRecord};
use crate::references::References;
use crate::runs::Run;
use naming::Exact;

impl Exact for References {
    ghost exact = { exact_references };
}

impl Exact for Run {
    ghost exact = { exact_run };
}

impl Exact for Generation {
    ghost exact = { exact_generation };
}

impl Exact for PathRecord {
    ghost exact = { exact_path };
}

impl Exact for Entry {
    ghost exact = { exact_entry _ (λ x y. Prim.search rules) };
}
