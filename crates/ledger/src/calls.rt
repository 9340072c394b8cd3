// The calls of a store, and what they answer.
use naming::Hash;
use order::RowSet;
use records::PathRecord;

// A call with its arguments: any value of their types may come.
#[derive(Clone, Copy, PartialEq, Eq, Debug)]
pub enum Call<'a> {
    Lease {
        holder: u8,
        hash: Hash,
    },
    Release {
        holder: u8,
    },
    Begin {
        holder: u8,
        hash: Hash,
        name: &'a [u8],
        size: u32,
    },
    Put {
        holder: u8,
        piece: &'a [u8],
    },
    Seal {
        holder: u8,
    },
    Scrap {
        holder: u8,
    },
    Commit {
        profile: u8,
        hash: Hash,
    },
    Rollback {
        profile: u8,
    },
    Switch {
        profile: u8,
        number: u32,
    },
    Forget {
        profile: u8,
        number: u32,
    },
    Collect,
    Step,
    Open,
    Find {
        hash: Hash,
    },
    Closure {
        hash: Hash,
    },
    Read {
        hash: Hash,
        index: u32,
        room: usize,
    },
}

// The members of a closure: one bit for each of the paths in registration order, how many paths there are, and how many bits are one. The call answers the
// bits with both numbers, which the set alone does not tell.
#[derive(Clone, Copy, PartialEq, Eq, Debug)]
pub struct Members {
    pub rows: RowSet,
    pub paths: usize,
    pub count: usize,
}

// What a granted call answers; a call answers this or a refusal, `Result<Answer, Refusal>`. A block is in fixed memory, with the number of its bytes
// that are the content's beside it.
#[derive(Clone, Copy, PartialEq, Eq, Debug)]
pub enum Answer {
    Done,
    Number(u32),
    Marked(Hash),
    Removed(Hash),
    Ended,
    Found(Option<PathRecord>),
    Members(Members),
    Block { content: [u8; 256], count: usize },
}
