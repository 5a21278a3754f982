// Which conditions have a parameter. Nothing here takes memory; it calls itself for a nested condition alone.
ghost use Rattle.std.specs.Prelude.{◌≡◌, map};
ghost use Rattle.std.specs.List.{list_any};
ghost use Rattle.query_block.specs.Blocks.{has_parameter, relation_tree};
ghost use Rattle.query_block.specs.Conditions.{chain, filter_tree};
ghost use Rattle.query_block.specs.Parameters.{is_any_open, is_open, is_parameter};

use crate::block::Relation;
use crate::condition::{Condition, Operand};

fn is_parameter(operand: &Operand) -> bool
    ensures { result ≡ is_parameter operand.now }
{
    match operand {
        Operand::Column(_) => false,
        Operand::Literal(_) => false,
        Operand::Parameter(_) => true,
    }
}

fn are_any_parameters(operands: &[Operand]) -> bool
    ensures { result ≡ list_any is_parameter operands.now }
{
    operands.iter().any(|operand| is_parameter(operand))
}

/// Whether a condition has a parameter anywhere in it. It takes as much of the machine's stack as the condition is nested
/// deep.
#[cycle(open)]
pub fn is_open(condition: &Condition) -> bool
    ensures { result ≡ is_open (filter_tree condition.now) }
{
    match condition {
        Condition::Compare(_, left, right) => is_parameter(left) || is_parameter(right),
        Condition::Between(of, low, high) => {
            is_parameter(of) || is_parameter(low) || is_parameter(high)
        }
        Condition::OneOf(of, operands) => {
            is_parameter(of) || are_any_parameters(operands.as_slice())
        }
        Condition::IsNull(_) => false,
        Condition::Not(inner) => is_open(inner),
        Condition::And(parts) => is_any_open(parts.as_slice()),
        Condition::Or(parts) => is_any_open(parts.as_slice()),
    }
}

// Whether one of a chain's operands has a parameter.
#[cycle(open)]
fn is_any_open(parts: &[Condition]) -> bool
    ensures { result ≡ is_any_open (chain (map filter_tree parts.now)) }
{
    for part in parts {
        if is_open(part) {
            return true;
        }
    }
    false
}

fn are_any_open(filter: &[Condition]) -> bool
    ensures { result ≡ list_any (λ conjunct. is_open (filter_tree conjunct)) filter.now }
{
    filter.iter().any(|conjunct| is_open(conjunct))
}

/// Whether a relation's filter has a parameter.
pub(crate) fn has_parameter(relation: &Relation) -> bool
    ensures { result ≡ has_parameter (relation_tree relation.now) }
{
    are_any_open(relation.filter.as_slice())
}
