// What a power cut leaves of a block: trials on a bench card behind write-behind, each with the reason why what it found was allowed.
use anyhow::anyhow;
use bench_card::BenchCard;
use tallies::Cut;
use trials::{Outcome, trial};
use write_behind::WriteBehind;

// The contents of the block before and after.
const OLD: u8 = b'A';

const NEW: u8 = b'B';

const CUTS: [Cut; 3] = [
    Cut { at: 3, kept: 0 },
    Cut { at: 4, kept: 1 },
    Cut { at: 0, kept: 0 },
];

// Why a disk may be found so.
fn reason(outcome: Outcome) -> &'static str {
    match (outcome.settled, outcome.found) {
        (true, _) => "the barrier was done, so no cut can undo the write",
        (false, NEW) => "the barrier was cut, but the block had come to the card before",
        (false, _) => "the barrier was cut, so what was settled before may stand",
    }
}

fn tell_moment(rt: &HostRuntime, cut: &Cut) -> anyhow::Result<()> {
    match cut.at {
        0 => print!(rt; "  power cut after the barrier")?,
        at => print!(rt; "  power cut in operation {at}")?,
    }
    Ok(())
}

// One trial on a card of its own.
fn tell_cut(rt: &HostRuntime, cut: &Cut) -> anyhow::Result<()> {
    let mut bytes = [0; 1024];
    let card = BenchCard::new(&mut bytes, cut.at, cut.kept);
    // By a pattern: of `ok` and `map_err`, which take the disk with what is lent to it, the checker makes no proof.
    let Ok(mut disk) = WriteBehind::new(rt.alloc(), card) else {
        return Err(anyhow!("no memory for write-behind"));
    };
    match trial(&mut disk, OLD, NEW) {
        Ok(outcome) => {
            let found = char::from(outcome.found);
            let why = reason(outcome);
            tell_moment(rt, cut)?;
            println!(rt; ", found {found}: {why}")?;
        }
        Err(fault) => println!(rt; "  refused: {fault:?}")?,
    }
    Ok(())
}

pub(crate) fn tell(rt: &HostRuntime) -> anyhow::Result<()> {
    println!(rt;
        "A block on a bench card: A is settled (operations 1 and 2), then B is written behind and a barrier brings it below (3 and 4):"
    )?;
    for cut in &CUTS {
        tell_cut(rt, cut)?;
    }
    Ok(())
}
