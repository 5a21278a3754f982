// The table of the best plans of all sets of relations. Sets are numbers, and each one's sides are smaller numbers, so the
// table is filled upwards. An entry that is kept of another point, where each axis inside the set has the same level, is taken
// from there.
ghost use Rattle.std.specs.Prelude.{◌≡◌, ◌+◌, ◌^◌, ◌<◌, ◌≤◌, length};
ghost use Rattle.plan_space.specs.Table.{AreLeast};
ghost use Rattle.cost_model.specs.Prices.{own_at, block_at};
ghost use Rattle.plan_space.specs.Search.{IsFilledBelow, IsHighestOf, IsLeastFound};
ghost use Rattle.plan_space.specs.Alike.{AreEarlier};

use crate::alike::alike_place;
use crate::entry::Entry;
use crate::kept_rows::KeptRows;
use crate::steps::Search;
use cost_model::Prices;
use plan_tree::{Root, Subset};
use sql_values::MAX_AXES;
use std::marker::Model;

impl Search<'_> {
    // The entry of the set, whose highest relation this is.
    fn entry_of(&self, relation: u8) -> Entry
        requires { IsHighestOf (block_at self.now.at) self.now.set relation }
        ensures { IsLeastFound self.now result }
    {
        let _block = self.prices.block();
        let alone = Subset::one(relation);
        let side = alone.number();
        let start = if self.set.number() == side {
            self.readings(relation)
        } else {
            self.offered(Root::Nest(side), self.prices.nest(alone, self.set))
        };
        self.joins(start)
    }
}

// What the table of a point is filled by: the prices there, which axes are inside which sets, and the rows that are kept.
#[derive(Drop)]
struct Filling<'s> {
    prices: &'s Prices<'s>,
    inside: &'s [[bool; MAX_AXES]; 64],
    rows: &'s KeptRows,
}

impl<'s> Model for Filling<'s> {
    ghost use Rattle.query_block.specs.contracts.condition.Condition as condition;
    ghost use Rattle.std.specs.Coded.{codes};
    ghost use Rattle.cost_model.specs.Pricing.{Pricing};
    ghost use Rattle.plan_space.specs.Alike.{AreEarlier};

    ghost Value = { Pricing };

    ghost coded = { Prim.hlevel (codes, condition.the_row.coded) };

    ghost view = { λ f. f.prices.now };

    ghost invariant = { λ f. AreEarlier f.prices.now.costing f.inside.now f.rows.now };
}

impl Filling<'_> {
    // The entry of such a set: that of the point that is alike for it, where its row is kept.
    fn entry_here(&self, table: &[Entry; 64], set: Subset, relation: u8) -> Entry
        requires filled { IsFilledBelow (record { at = self.now; table = table.now; set = set }) }
        requires highest { IsHighestOf (block_at self.now) set relation }
        ensures { IsLeastFound (record { at = self.now; table = table.now; set = set }) result }
    {
        let place = alike_place(self.prices, self.inside, set);
        match self.rows.row(place) {
            Some(row) => row[set.number() as usize],
            None => {
                let prices = self.prices;
                let search = Search { prices, table, set };
                search.entry_of(relation)
            }
        }
    }

    // The entries of the sets whose highest relation this is.
    fn add_relation(&self, table: &mut [Entry; 64], relation: u8)
        requires relation { relation < length self.now.costing.block.relations }
        requires filled { AreLeast (own_at self.now) (block_at self.now) table.old (2 ^ relation) }
        ensures { AreLeast (own_at self.now) (block_at self.now) table.new (2 ^ (relation + 1)) }
    {
        let _block = self.prices.block();
        let alone = Subset::one(relation).number();
        for rest in 0..alone {
            let set = alone + rest;
            table[set as usize] = self.entry_here(table, Subset::new(set), relation);
        }
    }
}

/// Fills a table with the entries of all sets of the block's relations, where these are the axes inside the sets and the rows that
/// are kept. What is in the table before doesn't matter.
pub(crate) fn fill(
    prices: &Prices<'_>,
    inside: &[[bool; MAX_AXES]; 64],
    rows: &KeptRows,
    table: &mut [Entry; 64],
)
    requires { AreEarlier prices.now.costing inside.now rows.now }
    ensures { let block = block_at prices.now in
        AreLeast (own_at prices.now) block table.new (2 ^ length block.relations) }
{
    let filling = Filling {
        prices,
        inside,
        rows,
    };
    for relation in 0..prices.block().relations().len() {
        filling.add_relation(table, relation as u8);
    }
}
