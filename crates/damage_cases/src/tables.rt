// The cases.
use crate::cards::Card;
use crate::damage::Damage;
use crate::said::Said;

// What happens to the label: the words for it, the card, and the damage.
pub(crate) static LABELS: [(&str, Card, Damage); 39] = [
    ("as it is", Card::Late, Damage::Nothing),
    ("as it is, before any change", Card::Early, Damage::Nothing),
    ("mark, first byte", Card::Late, Damage::Byte(252, b'E')),
    ("mark, second byte", Card::Late, Damage::Byte(253, b'N')),
    ("mark, third byte", Card::Late, Damage::Byte(254, b'T')),
    ("mark, fourth byte", Card::Late, Damage::Byte(255, b'R')),
    ("255 blocks", Card::Late, Damage::Word(232, 255)),
    ("257 blocks", Card::Late, Damage::Word(232, 257)),
    ("2^24 + 256 blocks", Card::Late, Damage::Byte(235, 1)),
    ("count 0", Card::Late, Damage::Word(236, 0)),
    ("count 13", Card::Late, Damage::Word(236, 13)),
    ("count 16, all there", Card::Late, Damage::Word(236, 16)),
    ("count 17, one more", Card::Late, Damage::Word(236, 17)),
    ("count 61", Card::Late, Damage::Word(236, 61)),
    ("count 62", Card::Late, Damage::Word(236, 62)),
    ("count 2^32 - 1", Card::Late, Damage::Word(236, 0xffff_ffff)),
    ("count 61 of 64 entries", Card::Full, Damage::Word(236, 61)),
    ("count 62 of 64 entries", Card::Full, Damage::Word(236, 62)),
    ("first number 0", Card::Late, Damage::Long(240, 0)),
    ("first number 1", Card::Late, Damage::Long(240, 1)),
    ("first number one less", Card::Late, Damage::Down(240)),
    ("first number one more", Card::Late, Damage::Up(240)),
    ("first number 2^62", Card::Late, Damage::Long(240, 1 << 62)),
    (
        "first number 2^62 + 1",
        Card::Late,
        Damage::Long(240, (1 << 62) + 1),
    ),
    (
        "first number 2^64 - 1",
        Card::Late,
        Damage::Long(240, 0xffff_ffff_ffff_ffff),
    ),
    ("first number 0, count 0", Card::Early, Damage::Long(240, 0)),
    (
        "first number one more, count 0",
        Card::Early,
        Damage::Up(240),
    ),
    (
        "first number 2^62, count 0",
        Card::Early,
        Damage::Long(240, 1 << 62),
    ),
    (
        "first number 2^62 + 1, count 0",
        Card::Early,
        Damage::Long(240, (1 << 62) + 1),
    ),
    ("first block 0", Card::Late, Damage::Word(248, 0)),
    (
        "first block 1, the other half",
        Card::Late,
        Damage::Word(248, 1),
    ),
    (
        "first block 65, the other half, count 0",
        Card::Early,
        Damage::Word(248, 65),
    ),
    ("first block 2", Card::Late, Damage::Word(248, 2)),
    ("first block 64", Card::Late, Damage::Word(248, 64)),
    ("first block 66", Card::Late, Damage::Word(248, 66)),
    (
        "first block 2^32 - 1",
        Card::Late,
        Damage::Word(248, 0xffff_ffff),
    ),
    ("zeroed", Card::Late, Damage::Fill(0, 255, 0)),
    (
        "unused bytes not zero",
        Card::Late,
        Damage::Fill(0, 231, 255),
    ),
    (
        "the one before the change",
        Card::Late,
        Damage::Label(0, 1, 1),
    ),
];

// What happens to an entry's trailer: the words for it, and the damage.
pub(crate) static TRAILERS: [(&str, Damage); 12] = [
    ("mark, first byte", Damage::Up(252)),
    ("mark, second byte", Damage::Up(253)),
    ("mark, third byte", Damage::Up(254)),
    ("mark, fourth byte", Damage::Up(255)),
    ("number one more", Damage::Up(240)),
    ("number one less", Damage::Down(240)),
    ("number 2^56 more", Damage::Up(247)),
    ("back block one more", Damage::Up(248)),
    ("back block one less", Damage::Down(248)),
    ("back block 2^24 more", Damage::Up(251)),
    ("back block 0", Damage::Word(248, 0)),
    ("all bytes zero", Damage::Fill(0, 255, 0)),
];

// What happens to other blocks: the words for it, the card, the block, and the damage.
pub(crate) static BLOCKS: [(&str, Card, u32, Damage); 19] = [
    ("a full half", Card::Full, 0, Damage::Nothing),
    (
        "a full half, the last entry's mark",
        Card::Full,
        64,
        Damage::Up(252),
    ),
    ("a crowded card", Card::Crowded, 0, Damage::Nothing),
    (
        "the first entry's back block 64",
        Card::Late,
        65,
        Damage::Byte(248, 64),
    ),
    (
        "the first entry's back block 1, count 0",
        Card::Early,
        1,
        Damage::Byte(248, 1),
    ),
    (
        "the first entry's kind 0",
        Card::Late,
        65,
        Damage::Byte(0, 0),
    ),
    (
        "the first entry's kind 0, count 0",
        Card::Early,
        1,
        Damage::Byte(0, 0),
    ),
    (
        "the mark of the last entry below the count",
        Card::Late,
        78,
        Damage::Up(255),
    ),
    (
        "the mark of the last entry",
        Card::Late,
        80,
        Damage::Up(255),
    ),
    (
        "the mark of the last entry, count 0",
        Card::Early,
        15,
        Damage::Up(255),
    ),
    (
        "the block after the last entry",
        Card::Late,
        81,
        Damage::Fill(0, 255, 255),
    ),
    (
        "the first block of the other half",
        Card::Late,
        1,
        Damage::Fill(0, 255, 255),
    ),
    (
        "the first block of the data",
        Card::Late,
        129,
        Damage::Fill(0, 255, 255),
    ),
    (
        "unused bytes of a register",
        Card::Late,
        65,
        Damage::Fill(215, 239, 255),
    ),
    (
        "unused bytes of a name",
        Card::Late,
        65,
        Damage::Fill(26, 45, 255),
    ),
    (
        "unused bytes of references",
        Card::Late,
        66,
        Damage::Fill(75, 214, 255),
    ),
    (
        "unused bytes of a commit",
        Card::Late,
        74,
        Damage::Fill(26, 239, 255),
    ),
    (
        "unused bytes of a switch",
        Card::Late,
        76,
        Damage::Fill(6, 239, 255),
    ),
    (
        "unused bytes of a switch beyond the count",
        Card::Late,
        79,
        Damage::Fill(6, 239, 255),
    ),
];

// What the entry after the last one says: the words for it, and the entry.
pub(crate) static REGISTERS: [(&str, Said); 27] = [
    ("register: a hash again", Said::Register(1, 0, 0, &[])),
    (
        "register: 16,384 bytes",
        Said::Register(30, 16_384, 129, &[]),
    ),
    (
        "register: 16,385 bytes",
        Said::Register(30, 16_385, 129, &[]),
    ),
    (
        "register: 2^32 - 1 bytes",
        Said::Register(30, 0xffff_ffff, 129, &[]),
    ),
    (
        "register: one block at 128",
        Said::Register(30, 1, 128, &[]),
    ),
    (
        "register: one block at 129",
        Said::Register(30, 1, 129, &[]),
    ),
    (
        "register: two blocks at 254",
        Said::Register(30, 257, 254, &[]),
    ),
    (
        "register: two blocks at 255",
        Said::Register(30, 257, 255, &[]),
    ),
    (
        "register: one block at 256",
        Said::Register(30, 1, 256, &[]),
    ),
    (
        "register: one block at 2^32 - 1",
        Said::Register(30, 1, 0xffff_ffff, &[]),
    ),
    (
        "register: 16,384 bytes at 2^32 - 1",
        Said::Register(30, 16_384, 0xffff_ffff, &[]),
    ),
    (
        "register: two blocks at 247",
        Said::Register(30, 257, 247, &[]),
    ),
    (
        "register: two blocks at 248, the second taken",
        Said::Register(30, 257, 248, &[]),
    ),
    (
        "register: one block at 250, between runs",
        Said::Register(30, 1, 250, &[]),
    ),
    (
        "register: two blocks at 253, the first taken",
        Said::Register(30, 257, 253, &[]),
    ),
    ("register: no bytes at 0", Said::Register(30, 0, 0, &[])),
    ("register: no bytes at 1", Said::Register(30, 0, 1, &[])),
    ("register: no bytes at 129", Said::Register(30, 0, 129, &[])),
    (
        "register: eight references",
        Said::Register(30, 0, 0, &[1, 2, 3, 4, 5, 6, 7, 8]),
    ),
    (
        "register: references to 2 and 257",
        Said::Register(30, 0, 0, &[2, 257]),
    ),
    (
        "register: references to 257 and 2",
        Said::Register(30, 0, 0, &[257, 2]),
    ),
    (
        "register: a reference twice",
        Said::Register(30, 0, 0, &[1, 1]),
    ),
    (
        "register: an unknown reference",
        Said::Register(30, 0, 0, &[31]),
    ),
    (
        "register: a reference to itself",
        Said::Register(30, 0, 0, &[30]),
    ),
    (
        "register: references to another and itself",
        Said::Register(30, 0, 0, &[1, 30]),
    ),
    ("register: a name of one byte", Said::Name(b"t")),
    (
        "register: a name of 24 bytes",
        Said::Name(b"abcdefghijklmnopqrstuvwx"),
    ),
];

pub(crate) static OTHERS: [(&str, Said); 26] = [
    ("commit: profile 2", Said::Commit(2, 1, 1)),
    ("commit: profile 3", Said::Commit(3, 1, 1)),
    ("commit: profile 255", Said::Commit(255, 1, 1)),
    ("commit: an unknown hash", Said::Commit(1, 6, 31)),
    ("commit: a number below the greatest", Said::Commit(1, 4, 1)),
    ("commit: the greatest number again", Said::Commit(1, 5, 1)),
    ("commit: a number above the greatest", Said::Commit(1, 6, 1)),
    ("commit: number 0, the first", Said::Commit(2, 0, 1)),
    ("commit: number 999,999", Said::Commit(1, 999_999, 1)),
    ("commit: number 1,000,000", Said::Commit(1, 1_000_000, 1)),
    ("commit: number 2^32 - 1", Said::Commit(1, 0xffff_ffff, 1)),
    ("switch: there", Said::Switch(0, 1)),
    ("switch: not there", Said::Switch(0, 3)),
    ("switch: 0 in an empty profile", Said::Switch(2, 0)),
    ("switch: profile 3", Said::Switch(3, 1)),
    ("switch: profile 255", Said::Switch(255, 1)),
    ("forget: there", Said::Forget(0, 1)),
    ("forget: the current one", Said::Forget(0, 2)),
    ("forget: not there", Said::Forget(0, 3)),
    ("forget: 0 in an empty profile", Said::Forget(2, 0)),
    ("forget: profile 3", Said::Forget(3, 1)),
    ("remove: unknown", Said::Remove(31)),
    ("remove: a generation names it", Said::Remove(4)),
    ("remove: others refer to it", Said::Remove(1)),
    ("remove: only it refers to itself", Said::Remove(3)),
    ("remove: nothing refers to it", Said::Remove(8)),
];

// The same on the crowded card.
pub(crate) static CROWDED: [(&str, Said); 4] = [
    ("register: the 41st path", Said::Register(100, 0, 0, &[])),
    ("commit: a seventh generation", Said::Commit(0, 7, 1)),
    ("commit: a first generation", Said::Commit(1, 7, 1)),
    ("remove: the last path", Said::Remove(40)),
];

// What no entry can say: the words for it, an entry, and the bytes that differ, each with its place.
pub(crate) static FORGED: [(&str, Said, &[(u8, u8)]); 14] = [
    ("kind 0", Said::Switch(0, 1), &[(0, 0)]),
    ("kind 6", Said::Switch(0, 1), &[(0, 6)]),
    ("kind 255", Said::Switch(0, 1), &[(0, 255)]),
    ("name of 0 bytes", Said::Name(b"tool"), &[(21, 0)]),
    ("name cut to 1 byte", Said::Name(b"tool"), &[(21, 1)]),
    (
        "name of 25 bytes",
        Said::Name(b"abcdefghijklmnopqrstuvwx"),
        &[(21, 25)],
    ),
    ("name of 255 bytes", Said::Name(b"tool"), &[(21, 255)]),
    ("name with a space", Said::Name(b"tool"), &[(23, b' ')]),
    ("name with a zero", Said::Name(b"tool"), &[(25, 0)]),
    ("name with a dot first", Said::Name(b"tool"), &[(22, b'.')]),
    ("name with a dot second", Said::Name(b"tool"), &[(23, b'.')]),
    (
        "nine references",
        Said::Register(30, 0, 0, &[1, 2, 3, 4, 5, 6, 7, 8]),
        &[(54, 9), (215, 1), (216, 1)],
    ),
    (
        "255 references",
        Said::Register(30, 0, 0, &[1]),
        &[(54, 255)],
    ),
    ("nothing but a trailer", Said::Switch(0, 0), &[(0, 0)]),
];
