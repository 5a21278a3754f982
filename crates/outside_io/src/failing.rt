// Calls that fail by their numbers, as the implementations in memory make them. The numbers are
// those that the maker gave; nothing else makes a call fail.
ghost use Rattle.std.specs.Prelude.{◌≡◌, ◌+◌, ◌==◌, ◌≤◌};
ghost use Rattle.std.specs.List.{list_any};
ghost use Rattle.outside_io.specs.Calls.{no_calls, fails_next, after_call};

use std::marker::Model;

/// The numbers of the calls that are to fail, how many calls were made, and how many failed.
#[derive(Drop)]
pub(crate) struct FailingCalls {
    fails: Vec<u64>,
    made: u64,
    failed: u64,
}

impl Model for FailingCalls {
    ghost use Rattle.outside_io.specs.Calls.{Calls};

    ghost Value = { Calls };

    ghost view = { λ c. record { fails = c.fails.items; made = c.made; failed = c.failed } };
}

// In 128 bits, so that no number follows the last one by mistake.
fn has_next(numbers: &[u64], made: u64) -> bool
    ensures { result ≡ list_any (λ number. number == made + 1) numbers.now }
{
    let next = u128::from(made) + 1;
    numbers.iter().any(|number| u128::from(*number) == next)
}

impl FailingCalls {
    pub(crate) fn new(fails: Vec<u64>) -> FailingCalls
        ensures { result ≡ no_calls fails.items }
    {
        FailingCalls {
            fails,
            made: 0,
            failed: 0,
        }
    }

    /// Counts a call, and returns whether it is to fail.
    pub(crate) fn next_fails(&mut self) -> bool
        ensures fails { result ≡ fails_next self.old }
        ensures counted { self.new ≡ after_call self.old }
        ensures never_falls { self.old.failed ≤ self.new.failed }
    {
        let fails = has_next(&self.fails, self.made);
        self.made = self.made.saturating_add(1);
        if fails {
            self.failed = self.failed.saturating_add(1);
        }
        fails
    }
}
