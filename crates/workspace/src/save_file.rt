// SAVE: the file of a bouquet. It looks at no table, so a bouquet whose counts are out of date is saved too.
ghost use Rattle.std.specs.Str.{IsUtf8};
ghost use Rattle.sql_parse.specs.Trees.{SaveFile};
ghost use Rattle.workspace.specs.Begins.{BeginsFree};
ghost use Rattle.workspace.specs.Save.{save_outcome};
ghost use Rattle.workspace.specs.States.{world_of};

use crate::begun::Begun;
use crate::named::no_bouquet;
use crate::stop::Stop;
use crate::workspace::Workspace;
use bouquet_file::to_bytes;
use sql_parse::FileDef;
use std::alloc::Global;

impl Workspace {
    /// The file of the bouquet of this name, with the text of its query.
    pub fn save_file(&self, alloc: Global, save: &FileDef) -> Result<Begun, Stop>
        requires { IsUtf8 save.now.file }
        ensures { BeginsFree (world_of self.now) (SaveFile save.now)
            (λ file. save_outcome (world_of self.now) save.now) result }
    {
        let Some(kept) = self.bouquets.get(save.name.bytes()) else {
            return Err(no_bouquet(&save.name));
        };
        let bytes = to_bytes(alloc, &kept.bouquet, &kept.query)?;
        Ok(Begun::Saves(save.file.clone()?, bytes))
    }
}
