// Sets of relations as numbers, and the edges between two of them.
ghost use Rattle.std.specs.Prelude.{◌≡◌, ◌↔◌, ◌-◌, ◌^◌, ◌<◌, ◌≤◌, IsTrue, bit_or, length};
ghost use Rattle.query_block.specs.Meaning.{is_inside};
ghost use Rattle.plan_tree.specs.Enumerated.{column_on, edge_at};
ghost use Rattle.plan_tree.specs.Roots.{IsCrossed, IsSplit};
ghost use Rattle.plan_tree.specs.Sets.{is_between, set_of};

use query_block::{Block, Edge};
use std::marker::Model;

/// A set of relations of a block, of numbers below 8. It is seen as a number: bit r is 1 where relation r is in it.
#[derive(Clone, Copy)]
pub struct Subset {
    bits: u8,
}

impl Model for Subset {
    ghost use Rattle.std.specs.Prelude.{ℕ};

    ghost Value = { ℕ };

    ghost view = { λ s. s.bits };

    ghost inverse = { λ number. record { bits = number } };
}

impl Subset {
    /// The set that is seen as this number.
    pub fn new(number: u8) -> Subset
        ensures { result ≡ number }
    {
        Subset { bits: number }
    }

    /// The set of one relation.
    pub fn one(relation: u8) -> Subset
        requires { relation < 8 }
        ensures { result ≡ 2 ^ relation }
    {
        Subset {
            bits: 1 << relation,
        }
    }

    /// The set as a number, by which tables are indexed.
    pub fn number(self) -> u8
        ensures { result ≡ self }
    {
        self.bits
    }

    /// The relations of both sets.
    pub fn union(self, other: Subset) -> Subset
        ensures { result ≡ bit_or self other }
    {
        Subset {
            bits: self.bits | other.bits,
        }
    }

    /// Whether this is the left side of a greater set: what it leaves of that shares no relation with it.
    pub fn splits(self, whole: Subset) -> bool
        ensures { IsTrue result ↔ IsSplit self whole }
    {
        self.bits != 0 && self.bits < whole.bits && self.bits & (whole.bits - self.bits) == 0
    }

    /// The right side of the set, where this is its left one: the relations that aren't in that.
    pub fn without(self, left: Subset) -> Subset
        requires { IsSplit left self }
        ensures { result ≡ self - left }
    {
        Subset {
            bits: self.bits - left.bits,
        }
    }

    /// Whether a relation is in the set.
    pub fn has(self, relation: u8) -> bool
        requires { relation < 8 }
        ensures { result ≡ set_of self relation }
    {
        self.bits & (1 << relation) != 0
    }

    /// Whether both relations of an edge are in the set.
    pub fn has_both(self, edge: &Edge) -> bool
        requires left { edge.now.left < 8 }
        requires right { edge.now.right < 8 }
        ensures { result ≡ is_inside (set_of self) edge.now }
    {
        self.has(edge.left) && self.has(edge.right)
    }

    /// Whether an edge has one of its relations in each of two sets.
    pub fn is_joined(self, other: Subset, edge: &Edge) -> bool
        requires left { edge.now.left < 8 }
        requires right { edge.now.right < 8 }
        ensures { result ≡ is_between (set_of self) (set_of other) edge.now }
    {
        self.has(edge.left) && other.has(edge.right) || self.has(edge.right) && other.has(edge.left)
    }
}

/// Whether an edge of the block has one of its relations in each of two sets.
pub fn is_crossed(block: &Block, edge: u8, left: Subset, right: Subset) -> bool
    requires { edge < length block.now.edges }
    ensures { IsTrue result ↔ IsCrossed block.now.edges edge left right }
{
    left.is_joined(right, &block.edges()[edge as usize])
}

/// The column of one of its relations that an edge of the block compares.
pub fn column_of_edge(block: &Block, edge: u8, relation: u8) -> u8
    requires { edge < length block.now.edges }
    ensures { result ≡ column_on (edge_at block.now.edges edge) relation }
{
    let edge = block.edges()[edge as usize];
    if relation == edge.left {
        edge.left_column
    } else {
        edge.right_column
    }
}
