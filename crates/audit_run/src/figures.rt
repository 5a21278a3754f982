// What plans cost and work, looked at one after another.
ghost use Rattle.std.specs.Prelude.{◌≡◌, ◌-◌, ◌^◌, true};
ghost use Rattle.audit_run.specs.Measures.{is_worse};
ghost use Rattle.audit_run.specs.Executed.{measure, AreWith, HasWork};

/// What a plan costs at a point, and what it works.
#[derive(Clone, Copy, Drop)]
pub(crate) struct Measured {
    /// Its cost, in units of work.
    pub cost: u128,
    /// Its work: at least 1, and below 2^64.
    pub work: u128,
}

// Whether the quotient of cost by work is greater for one plan than for another. A cost times a work may pass 128 bits, so the
// whole parts of the quotients are compared, and what remains only where they are equal.
fn is_worse(plan: Measured, other: Measured) -> bool
    requires plan { HasWork plan }
    requires other { HasWork other }
    ensures { result ≡ is_worse (measure plan) (measure other) }
{
    let whole = plan.cost / plan.work;
    let other_whole = other.cost / other.work;
    if whole != other_whole {
        return whole > other_whole;
    }
    let remains = plan.cost % plan.work;
    let other_remains = other.cost % other.work;
    other_remains * plan.work < remains * other.work
}

/// The figures of the plans that were looked at so far.
#[derive(Clone, Copy, Drop)]
pub(crate) struct Figures {
    /// Whether none of them works more than it costs.
    pub below: bool,
    /// The plan with the greatest quotient of cost by work, the first of several; before the first plan a quotient of 0.
    pub worst: Measured,
    /// The least work; before the first plan the greatest number.
    pub cheapest: u128,
}

impl Figures {
    /// The figures of no plan.
    pub fn new() -> Figures
        ensures { result ≡ record {
          below = true;
          worst = record { cost = 0; work = 1 };
          cheapest = 2 ^ 128 - 1;
        } }
    {
        Figures {
            below: true,
            worst: Measured { cost: 0, work: 1 },
            cheapest: u128::MAX,
        }
    }

    /// The figures with those of one plan more.
    pub fn with(self, plan: Measured) -> Figures
        requires worst { HasWork self.worst }
        requires plan { HasWork plan }
        ensures { AreWith plan self result }
    {
        Figures {
            below: self.below & (plan.work <= plan.cost),
            worst: if is_worse(plan, self.worst) {
                plan
            } else {
                self.worst
            },
            cheapest: self.cheapest.min(plan.work),
        }
    }
}
