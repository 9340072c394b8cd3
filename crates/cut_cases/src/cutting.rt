// Runs with every cut, and with every pair of cuts.
use crate::runs::{Entries, Layer, Run, Start};
use crate::scripts::Script;
use crate::trying::{Attempt, blank_card};
use anyhow::ensure;
use std::alloc::Global;
use tallies::{Cut, Ending, Tally};

// The run on a new card, once with each cut.
pub(crate) fn single_cuts(heap: Global, run: Run, cuts: &[Cut]) -> anyhow::Result<Tally> {
    let attempt = Attempt::new(heap, run, blank_card(heap)?)?;
    let mut tally = Tally::default();
    for cut in cuts {
        let (ending, _) = attempt.cut_at(*cut)?;
        tally.count(ending);
    }
    Ok(tally)
}

// The cuts to be tried first, those to be tried after each of them, and which entries are appended then.
#[derive(PartialEq, Eq, Debug, Drop)]
pub(crate) struct CutPairs {
    pub(crate) first: Vec<Cut>,
    pub(crate) second: Vec<Cut>,
    pub(crate) then: Entries,
}

// How many first cuts there were, and what the runs after them ended in.
#[derive(Clone, Copy, PartialEq, Eq, Default, Debug)]
pub(crate) struct Found {
    pub(crate) first: u32,
    pub(crate) second: Tally,
}

// The attempt, once with each cut until one comes too late.
fn second_cuts(attempt: &Attempt, cuts: &[Cut], tally: &mut Tally) -> anyhow::Result<()> {
    for cut in cuts {
        let (ending, _) = attempt.cut_at(*cut)?;
        tally.count(ending);
        if ending == Ending::Uncut {
            return Ok(());
        }
    }
    Ok(())
}

// The same with each first cut; and after it, from what was found, the rest of the run and one entry more with each second cut.
fn first_cuts(attempt: &Attempt, cuts: &CutPairs, found: &mut Found) -> anyhow::Result<()> {
    for cut in cuts.first.as_slice() {
        let (ending, card) = attempt.cut_at(*cut)?;
        let from = match ending {
            Ending::Uncut => return Ok(()),
            Ending::Before(place) => place,
            Ending::After(place) => place.saturating_add(1),
            Ending::InFormat | Ending::Neither => {
                found.second.count(Ending::Neither);
                continue;
            }
        };
        found.first = found.first.saturating_add(1);
        let rest = attempt.rest(cuts.then, from, card)?;
        second_cuts(&rest, cuts.second.as_slice(), &mut found.second)?;
    }
    Ok(())
}

// The bytes of a card with the first entries of the script.
fn written(heap: Global, script: Script, layer: Layer, count: u32) -> anyhow::Result<Vec<u8>> {
    let run = Run {
        script,
        layer,
        start: Start::Format,
        entries: Entries::Scripted,
        from: 0,
        to: count,
    };
    let (ending, card) = Attempt::new(heap, run, blank_card(heap)?)?.cut_at(Cut {
        at: 0,
        kept: 0,
    })?;
    ensure!(ending == Ending::Uncut, "no card");
    Ok(card)
}

// Every pair of cuts around each of these entries, in which the halves change: the first one from the entry before to the entry after it, the second one in
// what follows the first.
pub(crate) fn pairs_around(
    heap: Global,
    script: Script,
    layer: Layer,
    changes: &[u32],
    cuts: &CutPairs,
) -> anyhow::Result<Found> {
    let mut found = Found::default();
    for change in changes {
        let from = change.saturating_sub(1);
        let run = Run {
            script,
            layer,
            start: Start::Load,
            entries: Entries::Scripted,
            from,
            to: change.saturating_add(2),
        };
        let attempt = Attempt::new(heap, run, written(heap, script, layer, from)?)?;
        first_cuts(&attempt, cuts, &mut found)?;
    }
    Ok(found)
}
