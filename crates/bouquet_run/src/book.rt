// What the runs of a program paid. It relies on the meter for what was spent, and is raised by `run` alone.
ghost use Rattle.std.specs.Prelude.{◌≡◌, ◌+◌, ◌≤◌};
ghost use Rattle.work_ledger.specs.Account.{max_account};

use db_catalog::Metered;
use std::marker::Model;

/// The work that all runs paid together, in units. `run` raises it by what it paid, and no other call raises it.
#[derive(Drop)]
pub struct Book {
    paid: u128,
}

impl Model for Book {
    ghost use Rattle.std.specs.Prelude.{ℕ};

    ghost Value = { ℕ };

    ghost view = { λ b. b.paid };
}

impl Book {
    /// Nothing is paid.
    pub fn new() -> Book
        ensures { result ≡ 0 }
    {
        Book { paid: 0 }
    }

    /// The work paid so far, in units.
    pub fn paid(&self) -> u128
        ensures { result ≡ self.now }
    {
        self.paid
    }

    /// Takes in what a meter spent.
    pub(crate) fn enter(&mut self, meter: &Metered<'_>)
        requires { self.old ≤ max_account }
        ensures { self.new ≡ self.old + meter.now.account.spent }
    {
        self.paid += meter.spent();
    }
}
