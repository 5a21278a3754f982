// The contours of a compiled bouquet, each made when it is climbed to.
ghost use Rattle.std.specs.Prelude.{◌≡◌, ◌≤◌, map};
ghost use Rattle.sql_values.specs.Limits.{max_threshold};
ghost use Rattle.plan_tree.specs.Plans.{plan_tree};
ghost use Rattle.cost_model.specs.Costing.{costing_tree};
ghost use Rattle.bouquet_type.specs.Compiled.{compiled};
ghost use Rattle.bouquet_type.specs.Sound.{IsSound};
ghost use Rattle.bouquet_type.specs.Ladders.{Climbs, IsLadder, StandsAtFoot};
ghost use Rattle.contours.specs.Lazy.{lazy_ladder};

use crate::maker::Maker;
use bouquet_type::{Contour, Ladder};
use plan_space::Outlook;
use plan_tree::Plan;
use std::alloc::{AllocError, Global};
use std::marker::Model;

/// The contours of the compiled bouquet of an outlook, of which only the one at hand is there. Climbing makes the next one.
#[derive(Drop)]
pub struct Lazy<'o> {
    maker: Maker<'o>,
    // The contour at hand: none at the foot.
    hand: Option<Contour>,
}

impl<'o> Model for Lazy<'o> {
    ghost use Rattle.query_block.specs.contracts.condition.Condition as condition;
    ghost use Rattle.plan_tree.specs.contracts.plan.Plan as plan;
    ghost use Rattle.std.specs.Coded.{codes};
    ghost use Rattle.bouquet_type.specs.Ladders.{IsLadder};
    ghost use Rattle.contours.specs.Lazy.{LazyState, lazy_ladder};

    ghost Value = { LazyState };

    ghost coded = { Prim.hlevel (codes, condition.the_row.coded, plan.the_row.coded) };

    ghost view = { λ l. record { maker = l.maker; hand = l.hand } };

    ghost invariant = { λ l. IsLadder (lazy_ladder (record { maker = l.maker; hand = l.hand })) };
}

impl<'o> Lazy<'o> {
    /// At the foot of the compiled bouquet of an outlook, by a threshold in percent. It takes no memory.
    pub fn new(outlook: Outlook<'o>, threshold: u32) -> Lazy<'o>
        requires { threshold ≤ max_threshold }
        ensures foot { StandsAtFoot (lazy_ladder result) }
        ensures whole { (lazy_ladder result).whole ≡ compiled (costing_tree outlook.entry) threshold }
        ensures sound { IsSound (compiled (costing_tree outlook.entry) threshold) }
    {
        Lazy {
            maker: Maker::new(outlook, threshold),
            hand: None,
        }
    }
}

impl<'o> Ladder for Lazy<'o> {
    ghost state = { lazy_ladder };

    fn climb(&mut self, alloc: Global) -> Result<bool, AllocError>
        ensures climbs { Climbs (lazy_ladder self.old) (lazy_ladder self.new) result }
        ensures ladder { IsLadder (lazy_ladder self.new) }
    {
        let Some(found) = self.maker.next(alloc)? else {
            return Ok(false);
        };
        self.hand = Some(found.contour);
        Ok(true)
    }

    fn plans(&self) -> &[Plan]
        ensures plans { map plan_tree result.now ≡ (lazy_ladder self.now).hand.plans }
        ensures ladder { IsLadder (lazy_ladder self.now) }
    {
        match &self.hand {
            Some(contour) => contour.plans.as_slice(),
            None => &[],
        }
    }

    fn cost(&self) -> u128
        ensures { result ≡ (lazy_ladder self.now).hand.cost }
    {
        match &self.hand {
            Some(contour) => contour.cost,
            None => 0,
        }
    }

    fn threshold(&self) -> u32
        ensures { result ≡ (lazy_ladder self.now).whole.threshold }
    {
        self.maker.threshold()
    }
}
