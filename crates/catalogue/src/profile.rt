// A profile: its generations by rising number, and the number of the current one, 0 where there is none.
// An `Option` of the number would have two values for none: whether there is a current one is whether there are generations.
ghost use Rattle.std.specs.Prelude.{◌≤◌, vec_capacity};

use records::Generation;

#[derive(PartialEq, Eq, Debug, Drop)]
pub struct Profile {
    pub(crate) generations: Vec<Generation>,
    pub(crate) current: u32,
    ghost room: { 6 ≤ vec_capacity generations },
}
