// LOAD: the rows of a file behind those of a table. The file is asked for only where the table is there.
ghost use Rattle.std.specs.Prelude.{◌≡◌, ◌<◌, length, OnErr};
ghost use Rattle.std.specs.Str.{IsUtf8};
ghost use Rattle.sql_parse.specs.Trees.{Load};
ghost use Rattle.workspace.specs.Begins.{BeginsFree};
ghost use Rattle.workspace.specs.Load.{load_bytes, load_outcome};
ghost use Rattle.workspace.specs.Returns.{ReturnsFree};
ghost use Rattle.workspace.specs.States.{world_of};

use crate::begun::{Asked, Begun, Pending};
use crate::lines;
use crate::named::no_table;
use crate::stop::Stop;
use crate::workspace::Workspace;
use sql_parse::LoadDef;
use std::alloc::Global;

impl Workspace {
    /// Asks for the file of a load.
    pub fn load(&self, load: &LoadDef) -> Result<Begun, Stop>
        requires { IsUtf8 load.now.file }
        ensures { BeginsFree (world_of self.now) (Load load.now)
            (load_outcome (world_of self.now) load.now) result }
    {
        let Some(table) = self.database.table_of(load.table.bytes()) else {
            return Err(no_table(&load.table));
        };
        Ok(Begun::Asks(Asked {
            name: load.file.clone()?,
            pending: Pending::Load(table),
        }))
    }

    /// Loads the bytes of a file, which are given up, into the table of this number, and prints how many rows it has.
    pub(crate) fn load_bytes(
        &mut self,
        alloc: Global,
        table: u32,
        bytes: Vec<u8>,
    ) -> Result<Vec<u8>, Stop>
        requires there { table < length self.old.database.tables }
        ensures due { ReturnsFree
            (load_bytes (world_of self.old) table bytes.items)
            result (world_of self.new) }
        ensures unchanged { OnErr result (self.new ≡ self.old) }
    {
        let mut text = lines::load_room(alloc)?;
        let rows = csv_load::load_file(alloc, &mut self.database, table, bytes)?;
        lines::write_load(&mut text, rows);
        Ok(text)
    }
}
