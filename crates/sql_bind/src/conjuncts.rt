// The conjuncts of WHERE: each becomes part of a filter, or an edge.
ghost use Rattle.std.specs.Prelude.{◌≡◌, ◌<◌, ◌^◌, [], ◌∷◌, IfOk, OnOk, length, map, replicate};
ghost use Rattle.query_block.specs.Conditions.{filter_tree};
ghost use Rattle.sql_bind.specs.Names.{first_fault_from};
ghost use Rattle.sql_bind.specs.Conjuncts.{bound_tree, conjunct_fault, edge_between, equality_between, form_fault};
ghost use Rattle.sql_bind.specs.Collected.{AddsConjuncts, HasParts, filter_trees, with_condition};
ghost use Rattle.sql_bind.specs.Refused.{RefusesAlways};

use crate::bound::Bound;
use crate::fault::BindFault;
use crate::reach::Reach;
use query_block::{ColumnAt, Condition, Edge};
use sql_values::Op;
use std::alloc::{AllocError, Global};

/// What the conjuncts so far come to.
#[derive(Drop)]
pub(crate) struct WhereParts {
    /// The filter of each relation, in FROM order.
    pub(crate) filters: Vec<Vec<Condition>>,
    /// The edges, in written order.
    pub(crate) edges: Vec<Edge>,
}

// The edge between two columns.
fn edge_between(a: ColumnAt, b: ColumnAt) -> Edge
    ensures { result ≡ edge_between a b }
{
    let (left, right) = if a.relation < b.relation {
        (a, b)
    } else {
        (b, a)
    };
    Edge {
        left: left.relation,
        left_column: left.column,
        right: right.relation,
        right_column: right.column,
    }
}

/// The edge that a comparison is where it is an equality of two columns.
pub(crate) fn equality_between(
    op: Op,
    left: Option<ColumnAt>,
    right: Option<ColumnAt>,
) -> Option<Edge>
    ensures { result ≡ equality_between op left right }
{
    match op {
        Op::Eq => match left {
            Some(left) => match right {
                Some(right) => Some(edge_between(left, right)),
                None => None,
            },
            None => None,
        },
        _ => None,
    }
}

// Puts a condition behind the filter of a relation, if there is such a relation.
fn push_filter(
    filters: &mut Vec<Vec<Condition>>,
    relation: u8,
    condition: Condition,
) -> Result<(), AllocError>
    ensures { OnOk result
        (filter_trees filters.new.items ≡ with_condition relation (filter_tree condition)
        (filter_trees filters.old.items)) }
{
    let at = relation as usize;
    if at < filters.len() {
        filters[at].push(condition)?;
    }
    Ok(())
}

// Refuses a conjunct of this number that is neither a filter nor an edge.
fn check_form(conjunct: &Bound, number: u32) -> Result<(), BindFault>
    ensures { RefusesAlways
        (form_fault number conjunct.now.reach conjunct.now.equality) result }
{
    match conjunct.reach {
        Reach::Nothing => Err(BindFault::PredicateForm { conjunct: number }),
        Reach::One(_) => Ok(()),
        Reach::Several => match conjunct.equality {
            Some(_) => Ok(()),
            None => Err(BindFault::PredicateForm { conjunct: number }),
        },
    }
}

/// Refuses conjuncts at the first that is neither a filter nor an edge. It takes no memory.
pub(crate) fn check_forms(conjuncts: &[Bound]) -> Result<(), BindFault>
    requires { length conjuncts.now < 2 ^ 32 }
    ensures { RefusesAlways
        (first_fault_from conjunct_fault 1 (map bound_tree conjuncts.now)) result }
{
    for i in 0..conjuncts.len() {
        check_form(&conjuncts[i], i as u32 + 1)?;
    }
    Ok(())
}

// Adds a conjunct.
fn add_conjunct(conjunct: Bound, parts: &mut WhereParts) -> Result<(), AllocError>
    ensures { OnOk result (AddsConjuncts (bound_tree conjunct ∷ []) parts.old parts.new) }
{
    let Bound {
        condition,
        reach,
        equality,
    } = conjunct;
    match reach {
        Reach::Nothing => Ok(()),
        Reach::One(relation) => {
            push_filter(&mut parts.filters, relation, condition)?;
            Ok(())
        }
        Reach::Several => match equality {
            Some(edge) => {
                parts.edges.push(edge)?;
                Ok(())
            }
            None => Ok(()),
        },
    }
}

/// The parts of no conjunct, of so many relations.
pub(crate) fn no_parts(alloc: Global, relations: usize) -> Result<WhereParts, AllocError>
    ensures { IfOk result (HasParts relations []) }
{
    let mut filters = Vec::with_capacity(alloc, relations)?;
    for _relation in 0..relations {
        filters.push(Vec::new(alloc))?;
    }
    let edges = Vec::new(alloc);
    Ok(WhereParts { filters, edges })
}

/// The parts of conjuncts, of so many relations.
pub(crate) fn parts_of(
    alloc: Global,
    relations: usize,
    conjuncts: Vec<Bound>,
) -> Result<WhereParts, AllocError>
    ensures { IfOk result (HasParts relations (map bound_tree conjuncts.items)) }
{
    let mut parts = no_parts(alloc, relations)?;
    for conjunct in conjuncts {
        add_conjunct(conjunct, &mut parts)?;
    }
    Ok(parts)
}
