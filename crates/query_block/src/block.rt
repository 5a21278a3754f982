// A block: what a query asks of which tables. It knows tables by their numbers alone.
ghost use Rattle.std.specs.Prelude.{◌≡◌, ◌*◌, ◌<◌, ◌≤◌, All, IfOk, [], length, map, sum_by};
ghost use Rattle.std.specs.List.{count_by};
ghost use Rattle.sql_values.specs.Limits.{max_axes, max_relations, max_columns};
ghost use Rattle.query_block.specs.Blocks.{axes_of, axis_of, axis_of_edge, block_tree, BlockTree, has_parameter, IsBlock, put_of, relation_tree, width_of, offset_of};
ghost use Rattle.query_block.specs.Values.{due_of, FitValues, value_fault};

use crate::condition::Condition;
use crate::edge::{ColumnAt, Edge};
use crate::kind::Kind;
use crate::open::has_parameter;
use crate::put::put_relations;
use crate::values::{ValueFault, fits_kinds};
use sql_values::{ColumnType, Sequence, Value};
use std::alloc::{AllocError, Global};
use std::marker::Model;

/// A table of FROM, and what WHERE asks of it alone.
#[derive(Drop)]
pub struct Relation {
    /// The table's number, from 0.
    pub table: u32,
    /// What its columns hold.
    pub columns: Sequence<ColumnType>,
    /// The conjuncts over this relation alone, in written order.
    pub filter: Sequence<Condition>,
    /// The numbers of its indexed columns, from 0.
    pub indexes: Sequence<u8>,
}

/// A query with its names bound. Its parts never change, and keep the invariant `IsBlock`.
#[derive(Drop)]
pub struct Block {
    relations: Vec<Relation>,
    edges: Vec<Edge>,
    projection: Vec<ColumnAt>,
    parameters: Vec<Kind>,
}

impl Model for Block {
    ghost use Rattle.query_block.specs.Shape.{BlockShape};
    ghost use Rattle.query_block.specs.contracts.condition.Condition as condition;
    ghost use Rattle.std.specs.Coded.{codes};

    ghost Value = { BlockShape };

    ghost coded = { Prim.hlevel (codes, condition.the_row.coded) };

    ghost use Rattle.query_block.specs.Blocks.{block_tree, IsBlock};

    ghost view = { λ b. record {
      relations = b.relations.items;
      edges = b.edges.items;
      projection = b.projection.items;
      parameters = b.parameters.items;
    } };

    ghost invariant = { λ b. IsBlock (block_tree (record {
      relations = b.relations.items;
      edges = b.edges.items;
      projection = b.projection.items;
      parameters = b.parameters.items;
    })) };
}

// How many words these relations have together.
fn words_of(relations: &[Relation]) -> usize
    requires few { length relations.now ≤ max_relations }
    requires narrow { All (λ relation. length relation.columns ≤ max_columns) relations.now }
    ensures words { result ≡ sum_by (λ relation. length relation.columns) relations.now }
    ensures bound { result ≤ length relations.now * max_columns }
{
    let mut words = 0;
    for relation in relations {
        words += relation.columns.as_slice().len();
    }
    words
}

// How many of these relations have a parameter.
fn count_open(relations: &[Relation]) -> usize
    ensures { result ≡ count_by (λ relation. has_parameter (relation_tree relation)) relations.now }
{
    let mut count = 0;
    for relation in relations {
        if has_parameter(relation) {
            count += 1;
        }
    }
    count
}

/// The law of blocks without parameters: each is the block of its own parts with no values put in.
pub fn blocks_without_parameters_stay()
    ensures { (block : BlockTree) → IsBlock block → block.parameters ≡ [] → put_of [] block ≡ block }
{}

/// The axis of an edge of a block.
pub fn axis_of_edge(edge: u8) -> usize
    ensures { result ≡ axis_of_edge edge }
{
    usize::from(edge)
}

impl Block {
    /// The block of these relations, in FROM order, of these edges, each of which is an axis, of the columns that the
    /// query asks for, and of the kinds of its parameters, all in written order. It takes no memory.
    pub fn new(
        relations: Vec<Relation>,
        edges: Vec<Edge>,
        projection: Vec<ColumnAt>,
        parameters: Vec<Kind>,
    ) -> Block
        requires { IsBlock (block_tree (record {
          relations = relations.items;
          edges = edges.items;
          projection = projection.items;
          parameters = parameters.items;
        })) }
        ensures { result ≡ record {
          relations = relations.items;
          edges = edges.items;
          projection = projection.items;
          parameters = parameters.items;
        } }
    {
        Block {
            relations,
            edges,
            projection,
            parameters,
        }
    }

    /// Its relations, in FROM order: 1 to 6, of 1 to 32 columns each.
    pub fn relations(&self) -> &[Relation]
        ensures relations { result.now ≡ self.now.relations }
        ensures block { IsBlock (block_tree self.now) }
    {
        &self.relations
    }

    /// Its edges, in written order: at most 6.
    pub fn edges(&self) -> &[Edge]
        ensures edges { result.now ≡ self.now.edges }
        ensures block { IsBlock (block_tree self.now) }
    {
        &self.edges
    }

    /// How many axes its grid has: at most 6.
    pub fn axes(&self) -> usize
        ensures axes { result ≡ axes_of (block_tree self.now) }
        ensures few { result ≤ max_axes }
    {
        self.edges.len() + count_open(&self.relations)
    }

    /// The axis of a relation whose filter has a parameter, at most 5; of any other there is none.
    pub fn axis_of(&self, relation: u8) -> Option<u8>
        requires { relation < length self.now.relations }
        ensures { result ≡ axis_of (block_tree self.now) relation }
    {
        let place = relation as usize;
        if !has_parameter(&self.relations[place]) {
            return None;
        }
        let axis = self.edges.len() + count_open(&self.relations[..place]);
        Some(axis as u8)
    }

    /// What each parameter stands for, in written order: fewer than 2^32.
    pub fn parameters(&self) -> &[Kind]
        ensures { result.now ≡ self.now.parameters }
    {
        &self.parameters
    }

    /// Whether these values fit the parameters: as many, each of its parameter's kind; else what is wrong first.
    pub fn fits_values(&self, values: &[Value]) -> Result<(), ValueFault>
        ensures { result ≡ due_of (value_fault self.now.parameters values.now) }
    {
        fits_kinds(&self.parameters, values)
    }

    /// The block with these values in the places of its parameters, of which none is left. The values fit.
    pub fn put(&self, alloc: Global, values: &[Value]) -> Result<Block, AllocError>
        requires { FitValues self.now.parameters values.now }
        ensures { IfOk result
            (λ block. block_tree block ≡ put_of values.now (block_tree self.now)) }
    {
        let relations = put_relations(alloc, values, &self.relations)?;
        let edges = Vec::from_slice(alloc, &self.edges)?;
        let projection = Vec::from_slice(alloc, &self.projection)?;
        Ok(Block {
            relations,
            edges,
            projection,
            parameters: Vec::new(alloc),
        })
    }

    /// The columns that the query asks for, in written order.
    pub fn projection(&self) -> &[ColumnAt]
        ensures projection { result.now ≡ self.now.projection }
        ensures block { IsBlock (block_tree self.now) }
    {
        &self.projection
    }

    /// How many words a row of all relations together has: 1 to 192. The words of each relation follow those of the one
    /// before.
    pub fn width(&self) -> usize
        ensures width { result ≡ width_of (block_tree self.now) }
        ensures bound { result ≤ max_relations * max_columns }
    {
        words_of(&self.relations)
    }

    /// Where the words of a relation begin in such a row, from 0.
    pub fn offset(&self, relation: u8) -> usize
        requires { relation < length self.now.relations }
        ensures { result ≡ offset_of (block_tree self.now) relation }
    {
        words_of(&self.relations[..relation as usize])
    }
}
