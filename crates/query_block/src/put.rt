// Conditions and relations with values in the places of their parameters: copies, which take memory.
ghost use Rattle.std.specs.Prelude.{◌≡◌, IfOk, map};
ghost use Rattle.query_block.specs.Blocks.{put_relation, relation_tree};
ghost use Rattle.query_block.specs.Conditions.{chain, filter_tree};
ghost use Rattle.query_block.specs.Parameters.{put_condition, put_conditions, put_operand};

use crate::block::Relation;
use crate::condition::{Condition, Operand};
use sql_values::{Sequence, Value};
use std::alloc::{AllocError, Global};

fn put_operand(values: &[Value], operand: &Operand) -> Result<Operand, AllocError>
    ensures { IfOk result (λ put. put ≡ put_operand values.now operand.now) }
{
    match operand {
        Operand::Column(column) => Ok(Operand::Column(*column)),
        Operand::Literal(value) => {
            let value = value.clone()?;
            Ok(Operand::Literal(value))
        }
        Operand::Parameter(number) => match values.get(*number as usize) {
            Some(value) => {
                let value = value.clone()?;
                Ok(Operand::Literal(value))
            }
            None => Ok(Operand::Literal(Value::Null)),
        },
    }
}

fn put_operands(
    alloc: Global,
    values: &[Value],
    operands: &[Operand],
) -> Result<Vec<Operand>, AllocError>
    ensures { IfOk result (λ put. put.items ≡ map (put_operand values.now) operands.now) }
{
    let mut put = Vec::with_capacity(alloc, operands.len())?;
    for i in 0..operands.len() {
        put.push(put_operand(values, &operands[i])?)?;
    }
    Ok(put)
}

/// A condition with the values in the places of its parameters.
#[cycle(put)]
fn put_condition(
    alloc: Global,
    values: &[Value],
    condition: &Condition,
) -> Result<Condition, AllocError>
    ensures { IfOk result
        (λ put. filter_tree put ≡ put_condition values.now (filter_tree condition.now)) }
{
    match condition {
        Condition::Compare(op, left, right) => {
            let left = put_operand(values, left)?;
            let right = put_operand(values, right)?;
            Ok(Condition::Compare(*op, left, right))
        }
        Condition::Between(of, low, high) => {
            let of = put_operand(values, of)?;
            let low = put_operand(values, low)?;
            let high = put_operand(values, high)?;
            Ok(Condition::Between(of, low, high))
        }
        Condition::OneOf(of, operands) => {
            let of = put_operand(values, of)?;
            let operands = put_operands(alloc, values, operands.as_slice())?;
            Ok(Condition::OneOf(of, operands))
        }
        Condition::IsNull(column) => Ok(Condition::IsNull(*column)),
        Condition::Not(inner) => {
            let inner = put_condition(alloc, values, inner)?;
            let inner = Box::new(alloc, inner)?;
            Ok(Condition::Not(inner))
        }
        Condition::And(parts) => {
            let parts = put_conditions(alloc, values, parts.as_slice())?;
            Ok(Condition::And(parts))
        }
        Condition::Or(parts) => {
            let parts = put_conditions(alloc, values, parts.as_slice())?;
            Ok(Condition::Or(parts))
        }
    }
}

// The same of conditions one after another.
#[cycle(put)]
fn put_conditions(
    alloc: Global,
    values: &[Value],
    parts: &[Condition],
) -> Result<Vec<Condition>, AllocError>
    ensures each { IfOk result (λ put. map filter_tree put.items
        ≡ map (λ part. put_condition values.now (filter_tree part)) parts.now) }
    ensures chain { IfOk result (λ put. chain (map filter_tree put.items)
        ≡ put_conditions values.now (chain (map filter_tree parts.now))) }
{
    let mut put = Vec::with_capacity(alloc, parts.len())?;
    for i in 0..parts.len() {
        put.push(put_condition(alloc, values, &parts[i])?)?;
    }
    Ok(put)
}

fn put_relation(
    alloc: Global,
    values: &[Value],
    relation: &Relation,
) -> Result<Relation, AllocError>
    ensures { IfOk result
        (λ put. relation_tree put ≡ put_relation values.now (relation_tree relation.now)) }
{
    let columns = Vec::from_slice(alloc, relation.columns.as_slice())?;
    let filter = put_conditions(alloc, values, relation.filter.as_slice())?;
    let indexes = Vec::from_slice(alloc, relation.indexes.as_slice())?;
    Ok(Relation {
        table: relation.table,
        columns: Sequence::from(columns),
        filter: Sequence::from(filter),
        indexes: Sequence::from(indexes),
    })
}

/// Relations with the values in the places of their parameters.
pub(crate) fn put_relations(
    alloc: Global,
    values: &[Value],
    relations: &[Relation],
) -> Result<Vec<Relation>, AllocError>
    ensures { IfOk result (λ put. map relation_tree put.items
        ≡ map (λ relation. put_relation values.now (relation_tree relation)) relations.now) }
{
    let mut put = Vec::with_capacity(alloc, relations.len())?;
    for i in 0..relations.len() {
        put.push(put_relation(alloc, values, &relations[i])?)?;
    }
    Ok(put)
}
