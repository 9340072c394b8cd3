// The cases.
use crate::entries::Kind;

// What the case is about, the hash's number, the size, the first block, and the numbers of the references.
pub(crate) const REGISTERS: [(&str, u8, u32, u32, &[u8]); 23] = [
    ("a new hash", 30, 1, 129, b""),
    ("a known hash", 10, 1, 129, b""),
    ("16,384 bytes", 30, 16384, 129, b""),
    ("16,385 bytes", 30, 16385, 129, b""),
    ("one block at 128", 30, 1, 128, b""),
    ("one block at 255", 30, 256, 255, b""),
    ("two blocks at 255", 30, 257, 255, b""),
    ("two blocks at 254", 30, 257, 254, b""),
    ("one block at 256", 30, 1, 256, b""),
    ("two blocks at 198, before a run", 30, 257, 198, b""),
    ("two blocks at 199, one of them taken", 30, 257, 199, b""),
    ("one block at 201, taken", 30, 1, 201, b""),
    ("one block at 202, after a run", 30, 1, 202, b""),
    ("no bytes at 0", 30, 0, 0, b""),
    ("no bytes at 1", 30, 0, 1, b""),
    (
        "eight references",
        30,
        0,
        0,
        b"\x01\x02\x03\x04\x05\x06\x07\x08",
    ),
    (
        "nine references",
        30,
        0,
        0,
        b"\x01\x02\x03\x04\x05\x06\x07\x08\x0a",
    ),
    ("a reference to itself", 30, 0, 0, b"\x1e"),
    ("references to another and itself", 30, 0, 0, b"\x01\x1e"),
    ("a reference to an unknown hash", 30, 0, 0, b"\x1f"),
    ("references in hash order", 30, 0, 0, b"\x01\x02\x0a"),
    ("references not in hash order", 30, 0, 0, b"\x02\x01"),
    ("the same reference twice", 30, 0, 0, b"\x01\x01"),
];

// What the case is about, the kind of entry, the profile, the generation's number, and the hash's number.
pub(crate) const GENERATIONS: [(&str, Kind, u8, u32, u8); 22] = [
    ("switch, no generation there", Kind::Switch, 0, 5, 1),
    ("forget, no generation there", Kind::Forget, 0, 5, 1),
    ("commit 5 to profile 3", Kind::Commit, 3, 5, 1),
    ("commit 5 to profile 2", Kind::Commit, 2, 5, 1),
    ("commit of an unknown hash", Kind::Commit, 0, 5, 99),
    ("commit 5", Kind::Commit, 0, 5, 1),
    ("commit 5 again", Kind::Commit, 0, 5, 2),
    ("commit 4, below", Kind::Commit, 0, 4, 2),
    ("forget the current one", Kind::Forget, 0, 5, 1),
    ("commit 7", Kind::Commit, 0, 7, 2),
    ("switch to 5", Kind::Switch, 0, 5, 1),
    ("switch to 6, not there", Kind::Switch, 0, 6, 1),
    ("switch to 5 of profile 3", Kind::Switch, 3, 5, 1),
    ("forget 7, not current", Kind::Forget, 0, 7, 1),
    ("commit 8", Kind::Commit, 0, 8, 3),
    ("commit 9", Kind::Commit, 0, 9, 3),
    ("commit 10", Kind::Commit, 0, 10, 3),
    ("commit 11", Kind::Commit, 0, 11, 3),
    ("commit 999,998, the sixth", Kind::Commit, 0, 999998, 3),
    ("commit 999,999, the seventh", Kind::Commit, 0, 999999, 3),
    ("commit 1,000,000 to profile 1", Kind::Commit, 1, 1000000, 4),
    ("commit 999,999 to profile 1", Kind::Commit, 1, 999999, 4),
];

// What the case is about, and the hash's number.
pub(crate) const REMOVES: [(&str, u8); 6] = [
    ("not registered", 99),
    ("named by a generation", 1),
    ("needed by another path", 50),
    ("needed by none", 51),
    ("needed by itself only", 50),
    ("gone", 50),
];

// A chain 1 to 3, a diamond over 1 (4 and 5, then 6), and paths that refer to themselves.
pub(crate) const NEEDS: [(u8, &[u8]); 8] = [
    (1, b""),
    (2, b"\x01"),
    (3, b"\x02"),
    (4, b"\x01"),
    (5, b"\x01"),
    (6, b"\x04\x05"),
    (7, b"\x07"),
    (8, b"\x03\x07\x08"),
];

// The hash's number, the size and the first block of the runs between which there are gaps.
pub(crate) const TAKEN: [(u8, u32, u32); 5] = [
    (1, 1, 136),
    (2, 768, 142),
    (3, 1792, 148),
    (4, 16384, 156),
    (5, 9216, 220),
];
