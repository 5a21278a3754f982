// The two stacks of an execution. They are lent on their own, so that rows of one can be read while rows are pushed
// on the other.
ghost use Rattle.std.specs.Prelude.{◌≡◌};
ghost use Rattle.row_stack.specs.Bounds.{IsWidth};
ghost use Rattle.row_stack.specs.Stack.{new_stack};

use crate::stack::RowStack;
use std::alloc::Global;

/// Where an execution keeps rows.
#[derive(Drop)]
pub struct Space {
    /// The rows that operators keep while they run.
    pub work: RowStack,
    /// The rows of the result.
    pub result: RowStack,
}

impl Space {
    /// Two stacks without rows, of rows of `width` words, 1 to 192. It takes no memory.
    pub fn new(alloc: Global, width: usize) -> Space
        requires { IsWidth width }
        ensures work { result.work ≡ new_stack width }
        ensures result { result.result ≡ new_stack width }
    {
        Space {
            work: RowStack::new(alloc, width),
            result: RowStack::new(alloc, width),
        }
    }
}
