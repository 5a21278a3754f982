// The cards of all sets of a block's relations at a point: the products of filtered counts, each from that of a smaller set, and
// these halved once for all edges inside the set, since every selectivity is the whole, halved.
ghost use Rattle.std.specs.Prelude.{◌≡◌, ◌+◌, ◌^◌, ◌<◌, ◌≤◌, if◌then◌else◌, length};
ghost use Rattle.sql_values.specs.Limits.{max_product};
ghost use Rattle.ess_grid.specs.Points.{IsPoint};
ghost use Rattle.query_block.specs.Blocks.{block_tree};
ghost use Rattle.cost_model.specs.Costing.{costing_tree, IsCosting};
ghost use Rattle.cost_model.specs.Prices.{AreCards};
ghost use Rattle.cost_model.specs.SetCards.{AreHalvings, AreProducts};

use crate::arithmetic::halved;
use crate::costing::Costing;
use crate::set::set_count;
use ess_grid::Point;
use plan_tree::Subset;

// The products of the sets whose highest relation this is.
fn add_relation(costing: &Costing<'_>, q: &Point, products: &mut [u128; 64], relation: u8)
    requires costing { IsCosting (costing_tree costing.now) }
    requires relation { relation < length costing.now.block.relations }
    requires point { IsPoint costing.now.grid q.now }
    requires smaller { AreProducts (record { costing = costing.now; point = q.now }) products.old
        (2 ^ relation) }
    ensures { AreProducts (record { costing = costing.now; point = q.now }) products.new
        (2 ^ (relation + 1)) }
{
    let alone = Subset::one(relation).number();
    let kept = u128::from(costing.kept(relation, q));
    for rest in 0..alone {
        products[(alone + rest) as usize] = kept * products[rest as usize];
    }
}

// The products of the filtered counts of all sets.
fn fill_products(costing: &Costing<'_>, q: &Point, products: &mut [u128; 64])
    requires { IsPoint costing.now.grid q.now }
    ensures { AreProducts (record { costing = costing.now; point = q.now }) products.new
        (2 ^ length (block_tree costing.now.block).relations) }
{
    products[0] = 1;
    for relation in 0..costing.block().relations().len() {
        add_relation(costing, q, products, relation as u8);
    }
}

// Counts how often the sets that this edge is inside are halved for it: all of the table at once, whatever the block has.
fn halve_by_edge(costing: &Costing<'_>, q: &Point, halvings: &mut [u8; 64], edge: usize)
    requires edge { edge < length costing.now.block.edges }
    requires point { IsPoint costing.now.grid q.now }
    requires before { AreHalvings (record { costing = costing.now; point = q.now }) halvings.old edge }
    ensures { AreHalvings (record { costing = costing.now; point = q.now }) halvings.new (edge + 1) }
{
    let ends = costing.block().edges()[edge];
    let more = costing.halvings(edge as u8, q);
    for set in 0..64 {
        let inside = Subset::new(set).has_both(&ends);
        halvings[set as usize] += if inside { more } else { 0 };
    }
}

// How often each set is halved for all edges inside it together.
fn fill_halvings(costing: &Costing<'_>, q: &Point, halvings: &mut [u8; 64])
    requires { IsPoint costing.now.grid q.now }
    ensures costing { IsCosting (costing_tree costing.now) }
    ensures halvings { AreHalvings (record { costing = costing.now; point = q.now }) halvings.new
        (length costing.now.block.edges) }
{
    *halvings = [0; 64];
    for edge in 0..costing.block().edges().len() {
        halve_by_edge(costing, q, halvings, edge);
    }
}

// Halves the product of each set so often.
fn halve_products(costing: &Costing<'_>, q: &Point, halvings: &[u8; 64], cards: &mut [u128; 64])
    requires products { AreProducts (record { costing = costing.now; point = q.now }) cards.old
        (2 ^ length (block_tree costing.now.block).relations) }
    requires halvings { AreHalvings (record { costing = costing.now; point = q.now }) halvings.now
        (length costing.now.block.edges) }
    ensures { AreCards (record { costing = costing.now; point = q.now }) cards.new }
{
    for set in 0..set_count(costing.block()) {
        cards[set as usize] = halved(cards[set as usize], halvings[set as usize]);
    }
}

/// Works out the cards of all sets of the block's relations.
pub(crate) fn fill_cards(
    costing: &Costing<'_>,
    q: &Point,
    halvings: &mut [u8; 64],
    cards: &mut [u128; 64],
)
    requires { IsPoint costing.now.grid q.now }
    ensures costing { IsCosting (costing_tree costing.now) }
    ensures cards { AreCards (record { costing = costing.now; point = q.now }) cards.new }
{
    fill_products(costing, q, cards);
    fill_halvings(costing, q, halvings);
    halve_products(costing, q, halvings, cards);
}
