// The refusals.
ghost use Rattle.ledger.specs.Calls.{row};
ghost use Rattle.std.specs.Prelude.{◌≡◌};

// Why a call was refused.
#[derive(Clone, Copy, PartialEq, Eq, Debug)]
pub enum Refusal {
    Shut,
    BadArgument,
    NotRegistered,
    HashTaken,
    AlreadyBuilding,
    NotBuilding,
    WrongLength,
    PathsFull,
    NoFreeRun,
    TooManyReferences,
    NoGeneration,
    GenerationCurrent,
    ProfileFull,
    NumbersSpent,
    CollectionState,
    WrongSize,
    BadLabel,
    BadEntry(u32),
}

impl Refusal {
    // The refusal's number. By name: `u8::from` would not say which of its numbers it is, since a bad entry has a block's number too.
    pub fn number(&self) -> u8
        ensures { result ≡ row self.now }
    {
        match self {
            Refusal::Shut => 1,
            Refusal::BadArgument => 2,
            Refusal::NotRegistered => 3,
            Refusal::HashTaken => 4,
            Refusal::AlreadyBuilding => 5,
            Refusal::NotBuilding => 6,
            Refusal::WrongLength => 7,
            Refusal::PathsFull => 10,
            Refusal::NoFreeRun => 11,
            Refusal::TooManyReferences => 12,
            Refusal::NoGeneration => 13,
            Refusal::GenerationCurrent => 14,
            Refusal::ProfileFull => 15,
            Refusal::NumbersSpent => 16,
            Refusal::CollectionState => 17,
            Refusal::WrongSize => 18,
            Refusal::BadLabel => 19,
            Refusal::BadEntry(_) => 20,
        }
    }
}
