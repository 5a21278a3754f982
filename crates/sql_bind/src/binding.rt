// The block of a query: the checks in their order, and then its parts.
ghost use Rattle.std.specs.Prelude.{◌≡◌, ◌<◌, ◌^◌, IfOk, IfSome, length, map, option_map};
ghost use Rattle.query_block.specs.Conditions.{filter_tree};
ghost use Rattle.query_block.specs.Blocks.{relation_tree};
ghost use Rattle.sql_parse.specs.Trees.{condition_tree, query_tree};
ghost use Rattle.sql_parse.specs.Counts.{predicates_in, of_condition};
ghost use Rattle.sql_parse.specs.WellFormed.{IsWellFormedQuery, IsWellFormedCondition};
ghost use Rattle.sql_bind.specs.Binding.{condition_fault, relation_with};
ghost use Rattle.sql_bind.specs.Collected.{IsAsked, filter_trees, with_filters, where_fault};
ghost use Rattle.sql_bind.specs.Refused.{Binds, RefusesBlock};

use crate::axes::check_axes;
use crate::bound::add_conjuncts;
use crate::conjuncts::{WhereParts, check_forms, no_parts, parts_of};
use crate::fault::BindFault;
use crate::from::{check_limit, named_tables};
use crate::projection::projection;
use crate::scope::{NamedTable, Scope};
use crate::walk::Walk;
use db_catalog::Database;
use query_block::{Block, Condition, Kind, Relation};
use sql_parse::{Cond, Query};
use sql_values::{ColumnDef, ColumnType, LimitName, MAX_RELATIONS, Sequence};
use std::alloc::{AllocError, Global};

// What the condition of WHERE asks for.
#[derive(Drop)]
struct WhereClause {
    parts: WhereParts,
    // The kinds of its parameters, in written order.
    parameters: Vec<Kind>,
}

// What a condition asks for: its predicates are checked first, and then its conjuncts.
fn asked_by(scope: &Scope<'_>, condition: &Cond) -> Result<WhereClause, BindFault>
    requires well_formed { IsWellFormedCondition (condition_tree condition.now) }
    requires counted { predicates_in (condition_tree condition.now) < 2 ^ 32 }
    ensures refuses { RefusesBlock
        (condition_fault scope.now (Some (condition_tree condition.now))) result }
    ensures asked { IfOk result (IsAsked scope.now (Some (condition_tree condition.now))) }
{
    let alloc = scope.alloc();
    let mut walk = Walk {
        next: 1,
        parameters: Vec::new(alloc),
    };
    let mut conjuncts = Vec::new(alloc);
    add_conjuncts(scope, condition, &mut walk, &mut conjuncts)?;
    check_forms(conjuncts.as_slice())?;
    let parts = parts_of(alloc, scope.tables().len(), conjuncts)?;
    Ok(WhereClause {
        parts,
        parameters: walk.parameters,
    })
}

// What the condition of WHERE asks for, if there is one.
fn asked_by_condition(scope: &Scope<'_>, condition: &Option<Cond>) -> Result<WhereClause, BindFault>
    requires well_formed { IfSome (option_map condition_tree condition.now) IsWellFormedCondition }
    requires counted { of_condition predicates_in
        (option_map condition_tree condition.now) < 2 ^ 32 }
    ensures refuses { RefusesBlock
        (condition_fault scope.now (option_map condition_tree condition.now)) result }
    ensures asked { IfOk result
        (IsAsked scope.now (option_map condition_tree condition.now)) }
{
    match condition {
        Some(condition) => asked_by(scope, condition),
        None => {
            let parts = no_parts(scope.alloc(), scope.tables().len())?;
            let parameters = Vec::new(scope.alloc());
            Ok(WhereClause { parts, parameters })
        }
    }
}

// The same, refused if it asks for too many axes.
fn asked_by_where(scope: &Scope<'_>, condition: &Option<Cond>) -> Result<WhereClause, BindFault>
    requires well_formed { IfSome (option_map condition_tree condition.now) IsWellFormedCondition }
    requires counted { of_condition predicates_in
        (option_map condition_tree condition.now) < 2 ^ 32 }
    ensures refuses { RefusesBlock
        (where_fault scope.now (option_map condition_tree condition.now)) result }
    ensures asked { IfOk result
        (IsAsked scope.now (option_map condition_tree condition.now)) }
{
    let asked = asked_by_condition(scope, condition)?;
    check_axes(&asked.parts)?;
    Ok(asked)
}

// What columns hold.
fn kinds_of(alloc: Global, columns: &[ColumnDef]) -> Result<Vec<ColumnType>, AllocError>
    ensures { IfOk result (λ kinds. kinds.items ≡ map (λ column. column.kind) columns.now) }
{
    let mut kinds = Vec::with_capacity(alloc, columns.len())?;
    for i in 0..columns.len() {
        kinds.push(columns[i].kind)?;
    }
    Ok(kinds)
}

// A table of FROM with its filter.
fn relation_with(
    alloc: Global,
    table: &NamedTable<'_>,
    filter: Vec<Condition>,
) -> Result<Relation, AllocError>
    ensures { IfOk result (λ relation.
        relation_tree relation ≡ relation_with table.now (map filter_tree filter.items)) }
{
    let columns = kinds_of(alloc, table.columns)?;
    let indexes = Vec::from_slice(alloc, table.indexed)?;
    Ok(Relation {
        table: table.number,
        columns: Sequence::from(columns),
        filter: Sequence::from(filter),
        indexes: Sequence::from(indexes),
    })
}

// The tables of FROM with their filters.
fn relations_with(
    alloc: Global,
    scope: &Scope<'_>,
    filters: Vec<Vec<Condition>>,
) -> Result<Vec<Relation>, AllocError>
    requires { length filters.items ≡ length scope.now }
    ensures { IfOk result (λ relations. map relation_tree relations.items
        ≡ with_filters scope.now (filter_trees filters.items)) }
{
    let tables = scope.tables();
    let mut relations = Vec::with_capacity(alloc, tables.len())?;
    for filter in filters {
        let at = relations.len();
        prove!(at < tables.len());
        let table = &tables[at];
        relations.push(relation_with(alloc, table, filter)?)?;
    }
    Ok(relations)
}

/// The block of a query: what it asks of which tables, its names bound to numbers.
///
/// Refused is the first of these checks that fails: how many tables FROM has; each of them from left to right, that the
/// database has it and that no alias stands twice; how many columns SELECT names, and each of them; the predicates of
/// WHERE, in each its columns and then the kinds of its operands, not all of which are parameters; the conjuncts of
/// WHERE, each over one relation or an equality of columns of two; how many edges and relations with a parameter there
/// are. Its only other refusal is out of memory, which doesn't come where FROM has too many tables: they are counted
/// before any memory is taken.
pub fn bind(alloc: Global, database: &Database, query: &Query) -> Result<Block, BindFault>
    requires well_formed { IsWellFormedQuery (query_tree query.now) }
    requires counted { of_condition predicates_in (query_tree query.now).condition < 2 ^ 32 }
    ensures { Binds database.now (query_tree query.now) result }
{
    let from = query.from.as_slice();
    check_limit(LimitName::Relations, MAX_RELATIONS, from.len())?;
    let scope = named_tables(alloc, database, from)?;
    let projection = projection(&scope, &query.columns)?;
    let asked = asked_by_where(&scope, &query.condition)?;
    let WhereClause { parts, parameters } = asked;
    let WhereParts { filters, edges } = parts;
    let relations = relations_with(alloc, &scope, filters)?;
    Ok(Block::new(relations, edges, projection, parameters))
}
