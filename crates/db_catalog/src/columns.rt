// Columns of a table: a copy of them, and the first that can't be.
ghost use Rattle.std.specs.Prelude.{◌≡◌, IfOk};

use sql_values::ColumnDef;
use std::alloc::{AllocError, Global};

// A copy of these columns.
pub(crate) fn copy_of(alloc: Global, columns: &[ColumnDef]) -> Result<Vec<ColumnDef>, AllocError>
    ensures { IfOk result (λ copy. copy.items ≡ columns.now) }
{
    let mut copy = Vec::with_capacity(alloc, columns.len())?;
    for column in columns {
        copy.push(column.clone()?)?;
    }
    Ok(copy)
}
