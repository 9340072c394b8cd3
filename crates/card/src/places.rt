// Where the fields of a block begin, and its marks.

// Of every entry.
pub(crate) const KIND: usize = 0;

pub(crate) const NUMBER: usize = 240;

pub(crate) const BACK: usize = 248;

pub(crate) const MARK: usize = 252;

// Of an entry that registers a path, and of one that removes it.
pub(crate) const HASH: usize = 1;

pub(crate) const NAME_LENGTH: usize = 21;

pub(crate) const NAME: usize = 22;

pub(crate) const LONGEST_NAME: usize = 24;

pub(crate) const SIZE: usize = 46;

pub(crate) const FIRST_BLOCK: usize = 50;

pub(crate) const REFERENCE_COUNT: usize = 54;

pub(crate) const REFERENCES: usize = 55;

// Of an entry that commits, switches to or forgets a generation.
pub(crate) const PROFILE: usize = 1;

pub(crate) const GENERATION: usize = 2;

pub(crate) const COMMITTED: usize = 6;

// Of the label.
pub(crate) const CARD_SIZE: usize = 232;

pub(crate) const BEGAN_WITH: usize = 236;

// The marks.
pub(crate) const ENTRY_MARK: [u8; 4] = *b"ENTR";

pub(crate) const LABEL_MARK: [u8; 4] = *b"LABL";
