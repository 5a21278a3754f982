// What the statements so far have made.
ghost use Rattle.std.specs.Prelude.{◌≡◌};
ghost use Rattle.workspace.specs.States.{world_of};
ghost use Rattle.workspace.specs.World.{nothing_made};

use crate::named_bouquets::NamedBouquets;
use db_catalog::Database;
use std::alloc::Global;
use std::hash::RandomState;
use std::marker::Model;

/// What the statements of a script so far have made: the database, and the bouquets under their names.
#[derive(Drop)]
pub struct Workspace {
    pub(crate) database: Database,
    pub(crate) bouquets: NamedBouquets,
}

impl Model for Workspace {
    ghost use Rattle.query_block.specs.contracts.condition.Condition as condition;
    ghost use Rattle.plan_tree.specs.contracts.plan.Plan as plan;
    ghost use Rattle.std.specs.Coded.{codes};
    ghost use Rattle.workspace.specs.States.{WorkspaceState, IsWorkspace};

    ghost Value = { WorkspaceState };

    ghost coded = { Prim.hlevel (codes, condition.the_row.coded, plan.the_row.coded) };

    ghost view = { λ w. record { database = w.database; bouquets = w.bouquets } };

    ghost invariant = { λ w. IsWorkspace (record { database = w.database; bouquets = w.bouquets }) };
}

impl Workspace {
    /// Before the first statement. Texts and names are hashed by `key`.
    pub fn new(alloc: Global, key: RandomState) -> Workspace
        ensures { world_of result ≡ nothing_made }
    {
        Workspace {
            database: Database::new(alloc, key),
            bouquets: NamedBouquets::new(alloc, key),
        }
    }

    /// The tables, with their names, texts and indexes.
    pub fn database(&self) -> &Database
        ensures { result.now ≡ self.now.database }
    {
        &self.database
    }
}
