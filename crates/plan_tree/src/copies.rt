// The same plan once more.
ghost use Rattle.std.specs.Prelude.{◌≡◌, IfOk};
ghost use Rattle.plan_tree.specs.Plans.{plan_tree};

use crate::plan::Plan;
use std::alloc::{AllocError, Global};

// A copy in a box of its own.
#[cycle(copy)]
fn boxed(alloc: Global, p: &Plan) -> Result<Box<Plan>, AllocError>
    ensures { IfOk result (λ copied. plan_tree copied.value ≡ plan_tree p.now) }
{
    let copied = copy(alloc, p)?;
    Ok(Box::new(alloc, copied)?)
}

/// The same plan once more. Fails only if memory runs out. It takes as much of the machine's stack as the tree is deep.
#[cycle(copy)]
pub fn copy(alloc: Global, p: &Plan) -> Result<Plan, AllocError>
    ensures { IfOk result (λ copied. plan_tree copied ≡ plan_tree p.now) }
{
    match p {
        Plan::Scan(relation) => Ok(Plan::Scan(*relation)),
        Plan::IndexScan(relation, column) => Ok(Plan::IndexScan(*relation, *column)),
        Plan::Nest(left, right) => Ok(Plan::Nest(boxed(alloc, left)?, boxed(alloc, right)?)),
        Plan::Hash(edge, left, right) => {
            Ok(Plan::Hash(*edge, boxed(alloc, left)?, boxed(alloc, right)?))
        }
        Plan::Merge(edge, left, right) => {
            Ok(Plan::Merge(*edge, boxed(alloc, left)?, boxed(alloc, right)?))
        }
        Plan::IndexLoop(edge, left, relation) => {
            Ok(Plan::IndexLoop(*edge, boxed(alloc, left)?, *relation))
        }
    }
}
