// CREATE INDEX.
ghost use Rattle.std.specs.Prelude.{◌≡◌, OnErr};
ghost use Rattle.workspace.specs.CreateIndex.{create_index_outcome};
ghost use Rattle.workspace.specs.Returns.{ReturnsFree};
ghost use Rattle.workspace.specs.States.{world_of};

use crate::named::{column_of, no_column, no_table};
use crate::stop::Stop;
use crate::workspace::Workspace;
use sql_parse::IndexDef;
use std::alloc::Global;

impl Workspace {
    /// Makes an index, which prints nothing.
    pub fn create_index(&mut self, alloc: Global, index: &IndexDef) -> Result<Vec<u8>, Stop>
        ensures due { ReturnsFree (create_index_outcome (world_of self.old) index.now)
            result (world_of self.new) }
        ensures unchanged { OnErr result (self.new ≡ self.old) }
    {
        let Some(table) = self.database.table_of(index.table.bytes()) else {
            return Err(no_table(&index.table));
        };
        let Some(column) = column_of(self.database.columns(table), &index.column) else {
            return Err(no_column(&index.column));
        };
        self.database
            .create_index(index.name.bytes(), table, column)?;
        Ok(Vec::new(alloc))
    }
}
