// The ledger: two numbers, and the one place where they are compared. It relies on nothing, and never takes memory.
// What is left, as far as 64 bits count it, is kept in place of what is spent: most payments look at that one number.
ghost use Rattle.std.specs.Prelude.{◌≡◌, ◌+◌, ◌≤◌};
ghost use Rattle.work_ledger.specs.Account.{Pays, IsInBounds, max_account};
ghost use Rattle.work_ledger.specs.Budget.{granted, new_account};

use std::marker::Model;

/// A payment didn't fit the limit. All that was left is spent then.
#[derive(Clone, Copy)]
pub struct Exhausted;

/// The work spent so far and the limit up to which it may be spent, both in units, of 0 to 2^126.
#[derive(Drop)]
pub struct Ledger {
    // What will be spent once all that is left is: at most the limit.
    ceiling: u128,
    // What is left until then. A payment within it is one subtraction.
    left: u64,
    limit: u128,
}

impl Model for Ledger {
    ghost use Rattle.std.specs.Prelude.{◌-◌, ◌≤◌};
    ghost use Rattle.work_ledger.specs.Account.{Account, max_account};

    ghost Value = { Account };

    ghost view = { λ l. record { spent = l.ceiling - l.left; limit = l.limit } };

    ghost invariant = { λ l.
        (l.left ≤ l.ceiling) × (l.ceiling ≤ l.limit) × (l.limit ≤ max_account) };
}

impl Ledger {
    /// Nothing is spent, and nothing may be.
    pub fn new() -> Ledger
        ensures { result ≡ new_account }
    {
        Ledger::of(0, 0)
    }

    // So much is spent, and so much may be.
    fn of(spent: u128, limit: u128) -> Ledger
        requires { IsInBounds (record { spent = spent; limit = limit }) }
        ensures { result ≡ record { spent = spent; limit = limit } }
    {
        let left = (limit - spent).min(u128::from(u64::MAX)) as u64;
        Ledger {
            ceiling: spent + u128::from(left),
            left,
            limit,
        }
    }

    /// The work paid so far.
    pub fn spent(&self) -> u128
        ensures spent { result ≡ self.now.spent }
        ensures bounds { IsInBounds self.now }
    {
        self.ceiling - u128::from(self.left)
    }

    /// The work up to which payments fit.
    pub fn limit(&self) -> u128
        ensures { result ≡ self.now.limit }
    {
        self.limit
    }

    /// Allows as much work more as the budget says, counted from what is spent. What was left before is gone.
    pub fn grant(&mut self, budget: u128)
        requires { self.old.spent + budget ≤ max_account }
        ensures { self.new ≡ granted budget self.old }
    {
        let spent = self.spent();
        *self = Ledger::of(spent, spent + budget);
    }

    /// Pays `n` units. A payment that doesn't fit spends what is left and is refused.
    pub fn pay(&mut self, n: u128) -> Result<(), Exhausted>
        requires { n ≤ max_account }
        ensures { Pays n self.old self.new result }
    {
        if n <= u128::from(self.left) {
            self.left -= n as u64;
            return Ok(());
        }
        self.pay_past(n)
    }

    // The same of a payment that isn't within what is left below the ceiling.
    fn pay_past(&mut self, n: u128) -> Result<(), Exhausted>
        requires { n ≤ max_account }
        ensures { Pays n self.old self.new result }
    {
        let after = self.spent() + n;
        if after > self.limit {
            *self = Ledger::of(self.limit, self.limit);
            return Err(Exhausted);
        }
        *self = Ledger::of(after, self.limit);
        Ok(())
    }
}
