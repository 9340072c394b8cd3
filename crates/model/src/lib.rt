// The catalogue as plain data, in specs/: which entries fit, what they make, what a path needs, the listing that makes a catalogue again.
// Each function here has one law of these definitions for its contract.
#![tactic(auto)]

ghost use Rattle.model.specs.Laws.{KeepsSound, ListingMakes, MakesSound, NeedsRegistered};

// Nothing is sound, and every fitting entry keeps a catalogue sound.
pub fn entries_keep_sound()
    ensures { KeepsSound }
{}

// Every catalogue that entries make is sound.
pub fn made_is_sound()
    ensures { MakesSound }
{}

// The listing of a sound catalogue makes it again, in at most 61 entries.
pub fn listing_makes()
    ensures { ListingMakes }
{}

// What a registered path needs is registered.
pub fn needs_are_registered()
    ensures { NeedsRegistered }
{}
