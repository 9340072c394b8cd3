// What any run of a store's calls must answer, whatever the power does: calls, answers and refusals, and in specs/ the rules and the law over runs.
// Each function here has one consequence of the rules for its contract.
#![tactic(auto)]

ghost use Rattle.ledger.specs.Examples.{Examples};
ghost use Rattle.ledger.specs.Promise.{FindsSealed, NeedsKept, OneAnswer, OpensDone, ReachesSound, ReadsSealed, SealsOnly, StepsAnswered, StepsCounted};

mod calls;
mod refusals;

pub use calls::{Answer, Call, Members};
pub use refusals::Refusal;

// A ledger that a run reaches is sound, and entries make every catalogue that an open may find.
pub fn every_reached_ledger_is_sound()
    ensures { ReachesSound }
{}

// At every live ledger on a run, what a generation or a lease needs is registered: the collector never removes it.
pub fn what_is_needed_is_kept()
    ensures { NeedsKept }
{}

// Every open is done, and finds the catalogue before or after the call that was cut.
pub fn every_open_is_done()
    ensures { OpensDone }
{}

// What a path holds changes in a seal alone.
pub fn only_a_seal_gives_content()
    ensures { SealsOnly }
{}

// Find answers the references of the path's last seal.
pub fn find_answers_the_last_seal()
    ensures { FindsSealed }
{}

// Read answers the bytes of the path's last seal.
pub fn read_answers_the_last_seal()
    ensures { ReadsSealed }
{}

// A collection ends in exactly as many steps as there were paths, paths sealed since, and one.
pub fn steps_are_counted()
    ensures { StepsCounted }
{}

// While a collection runs, a step has an answer.
pub fn a_step_has_an_answer()
    ensures { StepsAnswered }
{}

// The rules leave no two answers, cuts and what an open finds aside.
pub fn rules_leave_one_answer()
    ensures { OneAnswer }
{}

// The worked examples follow from the rules.
pub fn worked_examples_hold()
    ensures { Examples }
{}
