//! Audits: every plan of a bouquet's block is executed once, and what each works is held against what it costs at a point.
//! To the layers above it promises that an audit tells exactly how many plans there are, whether no work is above its cost,
//! the greatest quotient of cost by work, the least work and the work of all plans; by a law, that where no work is above its
//! cost, the works are as the costs at that point say, but for that quotient; and that it is refused exactly where there are
//! too many plans or too much work.
//! It never chooses between plans, and never enters what it spends in a book.
#![tactic(auto)]

mod executions;
mod figures;
mod law;
mod told;

pub use executions::audit;
pub use law::audits_that_say_yes_show_the_premise;
pub use told::{Audit, AuditFault};
