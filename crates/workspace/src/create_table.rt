// CREATE TABLE.
ghost use Rattle.std.specs.Prelude.{◌≡◌, ◌<◌, length, OnErr};
ghost use Rattle.workspace.specs.CreateTable.{create_table_outcome};
ghost use Rattle.workspace.specs.Returns.{ReturnsFree};
ghost use Rattle.workspace.specs.States.{world_of};

use crate::stop::Stop;
use crate::workspace::Workspace;
use sql_parse::TableDef;
use std::alloc::Global;

impl Workspace {
    /// Makes a table, which prints nothing.
    pub fn create_table(&mut self, alloc: Global, table: &TableDef) -> Result<Vec<u8>, Stop>
        requires some { 0 < length table.now.columns }
        ensures due { ReturnsFree (create_table_outcome (world_of self.old) table.now)
            result (world_of self.new) }
        ensures unchanged { OnErr result (self.new ≡ self.old) }
    {
        self.database
            .create_table(table.name.bytes(), table.columns.as_slice())?;
        Ok(Vec::new(alloc))
    }
}
