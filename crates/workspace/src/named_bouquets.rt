// Bouquets under their names, in the order in which they came. It relies on the index map for look-ups, and knows no limit.
ghost use Rattle.std.specs.Prelude.{◌≡◌, ◌∷◌, ◌++◌, [], Contains, IfSome, IsNone, OnOk, OnErr, map};
ghost use Rattle.workspace.specs.States.{named_shape, named_of};
ghost use Rattle.workspace.specs.World.{named_in};

use bouquet_type::Bouquet;
use indexmap::IndexMap;
use std::alloc::{AllocError, Global};
use std::hash::RandomState;
use std::marker::Model;

/// A bouquet, with the canonical text of its query.
#[derive(Drop)]
pub(crate) struct KeptBouquet {
    pub(crate) query: Vec<u8>,
    pub(crate) bouquet: Bouquet,
}

/// Bouquets under different names.
#[derive(Drop)]
pub(crate) struct NamedBouquets {
    kept: IndexMap<Vec<u8>, KeptBouquet, RandomState>,
}

impl Model for NamedBouquets {
    ghost use Rattle.std.specs.Prelude.{List, map};
    ghost use Rattle.query_block.specs.contracts.condition.Condition as condition;
    ghost use Rattle.plan_tree.specs.contracts.plan.Plan as plan;
    ghost use Rattle.std.specs.Coded.{codes};
    ghost use Rattle.workspace.specs.States.{NamedShape, named_shape};

    ghost Value = { List NamedShape };

    ghost coded = { Prim.hlevel (codes, condition.the_row.coded, plan.the_row.coded) };

    ghost view = { λ b. map (λ entry. named_shape entry.0.items entry.1) b.kept.entries };
}

impl NamedBouquets {
    /// No bouquets. Their names are hashed by `key`. It takes no memory.
    pub(crate) fn new(alloc: Global, key: RandomState) -> NamedBouquets
        ensures { result ≡ [] }
    {
        NamedBouquets {
            kept: IndexMap::with_hasher(alloc, key),
        }
    }

    /// The bouquet of this name, where there is one.
    pub(crate) fn get(&self, name: &[u8]) -> Option<&KeptBouquet>
        ensures none { IsNone result → named_in name.now (map named_of self.now) ≡ None }
        ensures named { IfSome result (λ kept. named_in name.now (map named_of self.now)
            ≡ Some (named_of (named_shape name.now kept.now))) }
        ensures there { IfSome result (λ kept. Contains self.now (named_shape name.now kept.now)) }
    {
        self.kept.get(name)
    }

    /// Puts a bouquet behind the others, under a name that none has. Out of memory they are as they were.
    pub(crate) fn add(&mut self, name: Vec<u8>, kept: KeptBouquet) -> Result<(), AllocError>
        requires { named_in name.items (map named_of self.old) ≡ None }
        ensures added { OnOk result (self.new ≡ self.old ++ named_shape name.items kept ∷ []) }
        ensures unchanged { OnErr result (self.new ≡ self.old) }
    {
        self.kept.insert(name, kept)?;
        Ok(())
    }
}
