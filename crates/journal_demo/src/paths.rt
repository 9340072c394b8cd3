// The entries of the table's task.
use programs::{PROFILE, Program};
use records::Entry;

// The entry that commits the task as the generation of this number.
pub(crate) fn commit_of(task: &Program, number: u32) -> Entry {
    Entry::Commit {
        profile: PROFILE,
        number,
        hash: task.hash,
    }
}
