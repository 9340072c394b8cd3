// Where the power fails on a card, and why what its journal is then found with is allowed.
use crate::journalled::Summary;

// In which operation of the card the power goes (in none if 0, as the card counts), which blocks a restart keeps as they were written last, and how this is told:
// the words make it a row of this program's tables.
pub(crate) struct Cut {
    pub(crate) at: u64,
    pub(crate) kept: u32,
    pub(crate) when: &'static str,
}

// A restart keeps no block, or every one.
pub(crate) const NONE: u32 = 0;

pub(crate) const ALL: u32 = u32::MAX;

impl Cut {
    pub(crate) const NEVER: Cut = Cut {
        at: 0,
        kept: NONE,
        when: "never",
    };
}

pub(crate) const IN_ENTRY: [Cut; 5] = [
    Cut {
        at: 1,
        kept: NONE,
        when: "in operation 1, its block not kept",
    },
    Cut {
        at: 1,
        kept: ALL,
        when: "in operation 1, its block kept",
    },
    Cut {
        at: 2,
        kept: NONE,
        when: "in operation 2, its block not kept",
    },
    Cut {
        at: 2,
        kept: ALL,
        when: "in operation 2, its block kept",
    },
    Cut {
        at: 0,
        kept: NONE,
        when: "after operation 2",
    },
];

pub(crate) const IN_CHANGE: [Cut; 4] = [
    Cut {
        at: 5,
        kept: ALL,
        when: "in operation 5, its block kept",
    },
    Cut {
        at: 15,
        kept: NONE,
        when: "in operation 15, the label not kept",
    },
    Cut {
        at: 15,
        kept: ALL,
        when: "in operation 15, the label kept",
    },
    Cut {
        at: 0,
        kept: NONE,
        when: "after operation 18",
    },
];

// What came of a trial: whether the entry was recorded, what the catalogue was before it, and what was found after the restart. The catalogue is found
// in both cases, so the three are told beside each other, and not as a `Result`.
#[derive(Clone, Copy)]
pub(crate) struct Trial {
    pub(crate) recorded: bool,
    pub(crate) before: Summary,
    pub(crate) found: Summary,
}

// Why a card may be found so: after an entry that was recorded, or where the catalogue before it was found at its place, or where it was not.
pub(crate) struct Reasons {
    recorded: &'static str,
    before: &'static str,
    after: &'static str,
}

pub(crate) const ENTRY_REASONS: Reasons = Reasons {
    recorded: "the entry was settled, so no cut can undo it",
    before: "the entry was not settled, so the catalogue before it stands",
    after: "the entry was not settled, but its block had come to the card",
};

pub(crate) const CHANGE_REASONS: Reasons = Reasons {
    recorded: "the other half is in use, and the entry was settled in it",
    before: "the label still names the full half, which has the same catalogue",
    after: "the label names the other half, which has the same catalogue",
};

impl Trial {
    pub(crate) fn reason(&self, reasons: &Reasons) -> &'static str {
        match (self.recorded, self.found == self.before) {
            (true, _) => reasons.recorded,
            (false, true) => reasons.before,
            (false, false) => reasons.after,
        }
    }
}
