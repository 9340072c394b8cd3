// The power of a bench card, and the operation at which it goes.
ghost use Rattle.bench_card.specs.Card.{outcome, relit, spent, strikes};
ghost use Rattle.std.specs.Prelude.{◌≡◌, not};

use disk::Fault;

// Whether there is power, which operation ends it (0: none does), and how many operations were counted.
// An `Option` of the operation would have two values for none, since operations count from 1.
#[derive(Clone, Copy)]
pub(crate) struct Supply {
    pub(crate) lit: bool,
    pub(crate) cut: u64,
    pub(crate) done: u64,
}

impl Supply {
    // Refuses where there is no power.
    pub(crate) fn power(&self) -> Result<(), Fault>
        ensures { result ≡ outcome (not self.now.lit) }
    {
        if self.lit { Ok(()) } else { Err(Fault::Dark) }
    }

    // Counts an operation, and refuses where the power goes in it.
    pub(crate) fn spend(&mut self) -> Result<(), Fault>
        ensures answer { result ≡ outcome (strikes self.old) }
        ensures after { self.new ≡ spent self.old }
    {
        self.lit = self.done.checked_add(1) != Some(self.cut);
        self.done = self.done.saturating_add(1);
        self.power()
    }

    // Brings the power back.
    pub(crate) fn light(&mut self)
        ensures { self.new ≡ relit self.old }
    {
        self.lit = true;
    }
}
