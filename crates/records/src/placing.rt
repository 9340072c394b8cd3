// Where runs may lie.
ghost use Rattle.model.specs.Fits.{InData};
ghost use Rattle.model.specs.Plain.{run};
ghost use Rattle.records.specs.Runs.{meets, span_of};
ghost use Rattle.records.specs.View.{path_of};
ghost use Rattle.std.specs.Prelude.{◌≡◌, Decides};

use crate::records::PathRecord;
use crate::runs::Run;

// The first block of the data.
pub const DATA: u64 = 129;

impl Run {
    // Whether two runs share a block.
    pub fn meets(&self, other: &Run) -> bool
        ensures { result ≡ meets (span_of self.now) (span_of other.now) }
    {
        (0 < self.count && 0 < other.count)
            && (u64::from(self.first) < other.end() && u64::from(other.first) < self.end())
    }

    // Whether the run lies in the data of a card of `blocks` blocks; an empty one starts at 0.
    pub(crate) fn is_placed(&self, blocks: u32) -> bool
        ensures { Decides result (InData blocks (span_of self.now)) }
    {
        let first = u64::from(self.first);
        if self.count == 0 {
            first == 0
        } else {
            DATA <= first && self.end() <= u64::from(blocks)
        }
    }
}

impl PathRecord {
    // The run of the content.
    pub fn run(&self) -> Run
        ensures { span_of result ≡ run (path_of self.now) }
    {
        Run {
            first: self.first,
            count: self.size.div_ceil(256),
        }
    }
}
