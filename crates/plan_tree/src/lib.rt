//! Plans: in which order and by which joins the relations of a block come together, and which trees are plans of it.
//! To the layers above it promises that `is_plan` finds exactly the plans of a block, whatever tree it is given, that
//! `covers` is a plan's set of relations, that `plan_order` is a total order of plans, that `plan_text` is a plan's
//! text, that `read_plan` reads exactly the texts of plans, and that `all_plans` lists each plan of a block once, in plan
//! order. The definition of a plan's work on stored tables, as one sum, stands here too, and `work` has its lines: what
//! each kind of node costs by itself, by numbers of rows.
//! It never reads a table, and takes memory for texts, copies and plans that it reads or lists alone.
#![tactic(auto)]

mod copies;
mod enumerate;
mod leaves;
mod order;
mod plan;
mod range;
mod read;
mod roots;
mod rules;
mod subset;
mod text;
mod usable;
pub mod work;

pub use copies::copy;
pub use enumerate::{AllFault, all_plans, all_plans_are_listed};
pub use leaves::{bits_are_leaves, covers};
pub use order::{plan_order, plan_order_is_total};
pub use plan::Plan;
pub use range::{WordRange, range_of};
pub use read::{PlanFault, read_plan};
pub use roots::Root;
pub use rules::{is_indexed, is_plan, values_change_no_plan};
pub use subset::{Subset, column_of_edge, is_crossed};
pub use text::plan_text;
pub use usable::{has_usable, is_fixed_usable, is_usable};
