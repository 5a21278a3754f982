// The contours of a bouquet that is there.
ghost use Rattle.std.specs.Prelude.{◌≡◌, map};
ghost use Rattle.plan_tree.specs.Plans.{plan_tree};
ghost use Rattle.bouquet_type.specs.Kept.{ladder_of};
ghost use Rattle.bouquet_type.specs.Ladders.{Climbs, IsLadder, StandsAtFoot};
ghost use Rattle.bouquet_type.specs.Trees.{bouquet_tree};

use crate::bouquet::Bouquet;
use crate::contour::Contour;
use crate::ladder::Ladder;
use plan_tree::Plan;
use std::alloc::{AllocError, Global};
use std::marker::Model;

/// The contours of a bouquet, which holds them all. Climbing takes no memory.
#[derive(Drop)]
pub struct Kept<'b> {
    bouquet: &'b Bouquet,
    // The contours behind the one at hand.
    ahead: &'b [Contour],
    // The plans and the cost of the contour at hand: none, and 0, at the foot.
    plans: &'b [Plan],
    cost: u128,
}

impl<'b> Model for Kept<'b> {
    ghost use Rattle.query_block.specs.contracts.condition.Condition as condition;
    ghost use Rattle.plan_tree.specs.contracts.plan.Plan as plan;
    ghost use Rattle.std.specs.Coded.{codes};
    ghost use Rattle.bouquet_type.specs.Kept.{KeptState, ladder_of};
    ghost use Rattle.bouquet_type.specs.Ladders.{IsLadder};

    ghost Value = { KeptState };

    ghost coded = { Prim.hlevel (codes, condition.the_row.coded, plan.the_row.coded) };

    ghost view = { λ k. record {
      bouquet = k.bouquet.now;
      ahead = k.ahead.now;
      plans = k.plans.now;
      cost = k.cost;
    } };

    ghost invariant = { λ k. IsLadder (ladder_of (record {
      bouquet = k.bouquet.now;
      ahead = k.ahead.now;
      plans = k.plans.now;
      cost = k.cost;
    })) };
}

impl<'b> Kept<'b> {
    /// At the foot of a bouquet.
    pub fn new(bouquet: &'b Bouquet) -> Kept<'b>
        ensures foot { StandsAtFoot (ladder_of result) }
        ensures whole { (ladder_of result).whole ≡ bouquet_tree bouquet.now }
    {
        Kept {
            bouquet,
            ahead: bouquet.contours(),
            plans: &[],
            cost: 0,
        }
    }
}

impl<'b> Ladder for Kept<'b> {
    ghost state = { ladder_of };

    fn climb(&mut self, _: Global) -> Result<bool, AllocError>
        ensures climbs { Climbs (ladder_of self.old) (ladder_of self.new) result }
        ensures ladder { IsLadder (ladder_of self.new) }
    {
        let [contour, ahead @ ..] = self.ahead else {
            return Ok(false);
        };
        self.ahead = ahead;
        self.plans = contour.plans.as_slice();
        self.cost = contour.cost;
        Ok(true)
    }

    fn plans(&self) -> &[Plan]
        ensures plans { map plan_tree result.now ≡ (ladder_of self.now).hand.plans }
        ensures ladder { IsLadder (ladder_of self.now) }
    {
        self.plans
    }

    fn cost(&self) -> u128
        ensures { result ≡ (ladder_of self.now).hand.cost }
    {
        self.cost
    }

    fn threshold(&self) -> u32
        ensures { result ≡ (ladder_of self.now).whole.threshold }
    {
        self.bouquet.threshold()
    }
}
