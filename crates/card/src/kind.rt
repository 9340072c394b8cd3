// The kinds of entries.
ghost use Rattle.card.specs.Kinds.{IsKindOf};

// What an entry does, as the first byte of its block says it.
#[derive(Clone, Copy, PartialEq, Eq, Debug)]
pub(crate) enum Kind {
    Register = 1,
    Commit = 2,
    Switch = 3,
    Forget = 4,
    Remove = 5,
}

// A byte that is of no kind.
#[derive(Clone, Copy, PartialEq, Eq, Debug)]
pub(crate) struct UnknownKind(pub(crate) u8);

impl TryFrom<u8> for Kind {
    type Error = UnknownKind;

    ghost try_from_gives = { IsKindOf };

    fn try_from(byte: u8) -> Result<Kind, UnknownKind> {
        [
            Kind::Register,
            Kind::Commit,
            Kind::Switch,
            Kind::Forget,
            Kind::Remove,
        ]
        .iter()
        .copied()
        .find(|kind| *kind as u8 == byte)
        .ok_or(UnknownKind(byte))
    }
}
