// What each node of a plan costs by itself at a point. The cards of all sets of the block's relations are worked out once, so that
// a node's price takes a few look-ups and no division.
ghost use Rattle.std.specs.Prelude.{◌≡◌, ◌<◌, ◌≤◌, length};
ghost use Rattle.sql_values.specs.Limits.{max_product};
ghost use Rattle.ess_grid.specs.Points.{IsPoint};
ghost use Rattle.plan_tree.specs.Sets.{set_of};
ghost use Rattle.cost_model.specs.Costing.{costing_tree, IsCosting};
ghost use Rattle.cost_model.specs.Cards.{card_of};
ghost use Rattle.cost_model.specs.Costs.{index_on, index_stats, candidate_card};
ghost use Rattle.cost_model.specs.Few.{IsFewIndex};
ghost use Rattle.cost_model.specs.Prices.{IsSetOf, block_at, card_at};

use crate::arithmetic::scaled;
use crate::costing::Costing;
use crate::set::set_count;
use crate::set_cards::fill_cards;
use crate::stats::IndexStats;
use ess_grid::{Grid, Point};
use plan_tree::Subset;
use query_block::Block;
use std::marker::Model;

/// Room for the prices of nodes at a point. It is made once, and lent for one point after another.
#[derive(Drop)]
pub struct PriceRoom {
    // How often the product of a set is halved, by the set's number.
    halvings: [u8; 64],
    // The cards of sets, by their numbers.
    cards: [u128; 64],
}

impl PriceRoom {
    /// Room for the prices at one point at a time.
    pub fn new() -> PriceRoom {
        PriceRoom {
            halvings: [0; 64],
            cards: [0; 64],
        }
    }
}

/// The prices of nodes at a point of a costing's grid. The cards of all sets are worked out once, when it is made, so that
/// many plans can be costed at the point by a few look-ups a node. It takes no memory.
#[derive(Drop)]
pub struct Prices<'a> {
    pub(crate) costing: &'a Costing<'a>,
    q: &'a Point,
    room: &'a PriceRoom,
}

impl<'a> Model for Prices<'a> {
    ghost use Rattle.query_block.specs.contracts.condition.Condition as condition;
    ghost use Rattle.std.specs.Coded.{codes};
    ghost use Rattle.cost_model.specs.Pricing.{Pricing};
    ghost use Rattle.cost_model.specs.Prices.{ArePrices};

    ghost Value = { Pricing };

    ghost coded = { Prim.hlevel (codes, condition.the_row.coded) };

    ghost view = { λ p. record { costing = p.costing.now; point = p.q.now } };

    ghost invariant = { λ p. ArePrices (record { costing = p.costing.now; point = p.q.now })
        p.room.now.cards };
}

// The counts of the index on a column, among these. A column without one has one level and no matches.
fn index_on(columns: &[IndexStats], column: u8) -> IndexStats
    ensures { result ≡ index_on columns.now column }
{
    for index in columns {
        if index.column == column {
            return *index;
        }
    }
    IndexStats {
        column,
        height: 1,
        matches: None,
    }
}

impl<'a> Prices<'a> {
    /// The prices at this point of the costing's grid, kept in this room.
    pub fn new(costing: &'a Costing<'a>, q: &'a Point, room: &'a mut PriceRoom) -> Prices<'a>
        requires { IsPoint costing.now.grid q.now }
        ensures costing { result.costing ≡ costing.now }
        ensures point { result.point ≡ q.now }
    {
        fill_cards(costing, q, &mut room.halvings, &mut room.cards);
        Prices { costing, q, room }
    }

    /// The block.
    pub fn block(&self) -> &'a Block
        ensures block { result.now ≡ self.now.costing.block }
        ensures costing { IsCosting (costing_tree self.now.costing) }
    {
        self.costing.block()
    }

    /// The grid.
    pub fn grid(&self) -> &'a Grid
        ensures { result.now ≡ self.now.costing.grid }
    {
        self.costing.grid()
    }

    /// The point.
    pub fn point(&self) -> &'a Point
        ensures point { result.now ≡ self.now.point }
        ensures of_grid { IsPoint self.now.costing.grid result.now }
    {
        self.q
    }

    /// The card of a set.
    pub(crate) fn card(&self, set: Subset) -> u128
        requires { IsSetOf (block_at self.now) set }
        ensures card { result ≡ card_at self.now set }
        ensures few { result ≤ max_product }
        ensures costing { IsCosting (costing_tree self.now.costing) }
    {
        self.room.cards[set.number() as usize]
    }

    /// How many of so many pairs of rows are taken to be equal in the columns of an edge.
    pub(crate) fn candidates_among(&self, edge: u8, pairs: u128) -> u128
        requires edge { edge < length self.now.costing.block.edges }
        requires pairs { pairs ≤ max_product }
        ensures candidates { result
            ≡ candidate_card (costing_tree self.now.costing) edge self.now.point pairs }
        ensures few { result ≤ max_product }
    {
        scaled(pairs, self.costing.selectivity(edge, self.q))
    }

    /// The counts of the index on a column, those of the block's tables.
    pub fn index(&self, relation: u8, column: u8) -> IndexStats
        requires { relation < length self.now.costing.block.relations }
        ensures stats { result ≡ index_stats self.now.costing.stats relation column }
        ensures few { IsFewIndex result }
    {
        index_on(self.costing.relation(relation).columns.as_slice(), column)
    }
}

impl Costing<'_> {
    /// How many rows a set of relations is taken to give at a point of the grid: the product of what their filters keep
    /// there, scaled by the selectivity of each edge between them, each time rounded up. Of the set only the block's relations
    /// count. It takes no memory.
    pub fn card(&self, set: Subset, q: &Point) -> u128
        requires point { IsPoint self.now.grid q.now }
        ensures card { result ≡ card_of (costing_tree self.now) (set_of set) q.now }
        ensures few { result ≤ max_product }
    {
        let of_block = Subset::new(set.number() & (set_count(self.block()) - 1));
        Prices::new(self, q, &mut PriceRoom::new()).card(of_block)
    }
}
