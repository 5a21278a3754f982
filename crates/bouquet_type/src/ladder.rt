// Where the contours of a bouquet come from. A ladder never skips one.
ghost use Rattle.std.specs.Prelude.{◌≡◌, map};
ghost use Rattle.plan_tree.specs.Plans.{plan_tree};
ghost use Rattle.bouquet_type.specs.Ladders.{Climbs, IsLadder, LadderState};

use plan_tree::Plan;
use std::alloc::{AllocError, Global};

/// The contours of a bouquet, the cheapest first, of which one at a time is at hand. They may be there, or be made one by one.
pub trait Ladder {
    /// The whole bouquet, the contour at hand, and those ahead.
    ghost state: { Self → LadderState };

    /// Goes on to the next contour. False where the one at hand is the last. That one stays at hand then, and where memory is
    /// wanting.
    fn climb(&mut self, alloc: Global) -> Result<bool, AllocError>
        ensures climbs { Climbs (state self.old) (state self.new) result }
        ensures ladder { IsLadder (state self.new) };

    /// The plans of the contour at hand, in the order in which they are tried.
    fn plans(&self) -> &[Plan]
        ensures plans { map plan_tree result.now ≡ (state self.now).hand.plans }
        ensures ladder { IsLadder (state self.now) };

    /// The cost of the contour at hand, in units of work.
    fn cost(&self) -> u128
        ensures { result ≡ (state self.now).hand.cost };

    /// The threshold of the bouquet, in percent.
    fn threshold(&self) -> u32
        ensures { result ≡ (state self.now).whole.threshold };
}
