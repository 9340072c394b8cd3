// The table's programs, as far as their names are lawful, in hash order.
use programs::{LISTED, Program};
use std::alloc::{AllocError, Global};

pub(crate) fn sorted(heap: Global) -> Result<Vec<Program>, AllocError> {
    let mut programs: Vec<Program> = LISTED
        .iter()
        .filter_map(|(part, name)| Program::listed(part, name))
        .collect(heap)?;
    programs.sort()?;
    Ok(programs)
}
