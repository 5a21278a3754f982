// Conditions with their columns by number: each predicate is checked, and each of its columns looked up, once.
ghost use Rattle.std.specs.Prelude.{◌≡◌, ◌≤◌, ◌<◌, ◌+◌, ◌^◌, [], ◌∷◌, IfOk, IfErr, OnOk, length, map, None, false};
ghost use Rattle.query_block.specs.Conditions.{chain, filter_tree};
ghost use Rattle.sql_parse.specs.Trees.{Between, Compare, IsNull, OneOf, condition_tree, operands};
ghost use Rattle.sql_bind.specs.Predicates.{Walks, predicates, all_predicates, predicates_fault};
ghost use Rattle.sql_bind.specs.Conjuncts.{all_conjuncts, bound_conditions, bound_tree, conjunct_of, conjuncts, negated_if, reach_of_all};
ghost use Rattle.sql_bind.specs.Collected.{AddsBound};
ghost use Rattle.sql_bind.specs.Refused.{RefusesBlock};

use crate::conjuncts::equality_between;
use crate::fault::BindFault;
use crate::located::{Listed, locate, locate_list};
use crate::names::place_of;
use crate::reach::{Reach, reach_at};
use crate::scope::Scope;
use crate::walk::Walk;
use query_block::{Condition, Edge};
use sql_parse::{ColRef, Cond, Term};
use sql_values::{Op, Sequence};

/// A condition with its columns by number.
#[derive(Drop)]
pub(crate) struct Bound {
    pub(crate) condition: Condition,
    /// Of which relations its columns are.
    pub(crate) reach: Reach,
    /// The edge between two columns, if it is an equality of these.
    pub(crate) equality: Option<Edge>,
}

// The operands of a chain.
#[derive(Drop)]
pub(crate) struct Chain {
    conditions: Vec<Condition>,
    reach: Reach,
}

// The same under NOT, if it is negated.
fn under_not(scope: &Scope<'_>, negated: bool, bound: Bound) -> Result<Bound, BindFault>
    ensures bound { IfOk result (λ new. bound_tree new ≡ record {
      tree = negated_if negated (filter_tree bound.condition);
      reach = bound.reach;
      equality = None;
    }) }
    ensures fault { IfErr result (λ fault. fault ≡ BindFault.NoMemory) }
{
    let Bound {
        condition,
        reach,
        ..
    } = bound;
    let condition = if negated {
        Condition::Not(Box::new(scope.alloc(), condition)?)
    } else {
        condition
    };
    Ok(Bound {
        condition,
        reach,
        equality: None,
    })
}

fn bound_compare(
    scope: &Scope<'_>,
    op: Op,
    left: &Term,
    right: &Term,
    walk: &mut Walk,
) -> Result<Bound, BindFault>
    requires { walk.old.next < 2 ^ 32 }
    ensures refuses { RefusesBlock (predicates_fault scope.now walk.old.next
        (Compare op left.now right.now ∷ [])) result }
    ensures walks { OnOk result
        (Walks scope.now (Compare op left.now right.now ∷ []) walk.old walk.new) }
    ensures bound { IfOk result (λ bound.
        bound_tree bound ≡ conjunct_of scope.now (Compare op left.now right.now)) }
{
    let left = locate(scope, left)?;
    let right = locate(scope, right)?;
    walk.check(&[left.kind, right.kind])?;
    Ok(Bound {
        condition: Condition::Compare(op, left.operand, right.operand),
        reach: reach_at(left.place).joined(reach_at(right.place)),
        equality: equality_between(op, left.place, right.place),
    })
}

// The same without its own NOT.
fn bound_between(
    scope: &Scope<'_>,
    of: &Term,
    low: &Term,
    high: &Term,
    walk: &mut Walk,
) -> Result<Bound, BindFault>
    requires { walk.old.next < 2 ^ 32 }
    ensures refuses { RefusesBlock (predicates_fault scope.now walk.old.next
        (Between false of.now low.now high.now ∷ [])) result }
    ensures walks { OnOk result
        (Walks scope.now (Between false of.now low.now high.now ∷ []) walk.old walk.new) }
    ensures bound { IfOk result (λ bound.
        bound_tree bound ≡ conjunct_of scope.now (Between false of.now low.now high.now)) }
{
    let of = locate(scope, of)?;
    let low = locate(scope, low)?;
    let high = locate(scope, high)?;
    walk.check(&[of.kind, low.kind, high.kind])?;
    let others = reach_at(low.place).joined(reach_at(high.place));
    Ok(Bound {
        condition: Condition::Between(of.operand, low.operand, high.operand),
        reach: reach_at(of.place).joined(others),
        equality: None,
    })
}

fn bound_one_of(
    scope: &Scope<'_>,
    negated: bool,
    of: &Term,
    terms: &Sequence<Term>,
    walk: &mut Walk,
) -> Result<Bound, BindFault>
    requires { walk.old.next < 2 ^ 32 }
    ensures refuses { RefusesBlock (predicates_fault scope.now walk.old.next
        (OneOf negated of.now terms.now ∷ [])) result }
    ensures walks { OnOk result
        (Walks scope.now (OneOf negated of.now terms.now ∷ []) walk.old walk.new) }
    ensures bound { IfOk result (λ bound.
        bound_tree bound ≡ conjunct_of scope.now (OneOf negated of.now terms.now)) }
{
    let of = locate(scope, of)?;
    let Listed {
        operands,
        kinds,
        reach,
    } = locate_list(scope, of.kind, terms.as_slice())?;
    walk.check(kinds.as_slice())?;
    let bound = Bound {
        condition: Condition::OneOf(of.operand, operands),
        reach: reach_at(of.place).joined(reach),
        equality: None,
    };
    let bound = under_not(scope, negated, bound)?;
    Ok(bound)
}

fn bound_is_null(scope: &Scope<'_>, column: &ColRef, walk: &mut Walk) -> Result<Bound, BindFault>
    requires { walk.old.next < 2 ^ 32 }
    ensures refuses { RefusesBlock (predicates_fault scope.now walk.old.next
        (IsNull false column.now ∷ [])) result }
    ensures walks { OnOk result
        (Walks scope.now (IsNull false column.now ∷ []) walk.old walk.new) }
    ensures bound { IfOk result (λ bound.
        bound_tree bound ≡ conjunct_of scope.now (IsNull false column.now)) }
{
    let place = place_of(scope, column)?;
    walk.next += 1;
    Ok(Bound {
        condition: Condition::IsNull(place.column),
        reach: Reach::One(place.relation),
        equality: None,
    })
}

/// A condition with its columns by number: refused at the first predicate with a fault.
#[cycle(bound)]
pub(crate) fn bound_condition(
    scope: &Scope<'_>,
    condition: &Cond,
    walk: &mut Walk,
) -> Result<Bound, BindFault>
    requires { walk.old.next + length (predicates (condition_tree condition.now)) ≤ 2 ^ 32 }
    ensures refuses { RefusesBlock (predicates_fault scope.now walk.old.next
        (predicates (condition_tree condition.now))) result }
    ensures walks { OnOk result
        (Walks scope.now (predicates (condition_tree condition.now)) walk.old walk.new) }
    ensures bound { IfOk result (λ bound.
        bound_tree bound ≡ conjunct_of scope.now (condition_tree condition.now)) }
{
    match condition {
        Cond::Compare(op, left, right) => bound_compare(scope, *op, left, right, walk),
        Cond::Between(negated, of, low, high) => {
            let bound = bound_between(scope, of, low, high, walk)?;
            under_not(scope, *negated, bound)
        }
        Cond::OneOf(negated, of, terms) => bound_one_of(scope, *negated, of, terms, walk),
        Cond::IsNull(negated, column) => {
            let bound = bound_is_null(scope, column, walk)?;
            under_not(scope, *negated, bound)
        }
        Cond::Not(inner) => {
            let bound = bound_condition(scope, inner, walk)?;
            under_not(scope, true, bound)
        }
        Cond::And(parts) => {
            let Chain { conditions, reach } = bound_chain(scope, parts.as_slice(), walk)?;
            Ok(Bound {
                condition: Condition::And(conditions),
                reach,
                equality: None,
            })
        }
        Cond::Or(parts) => {
            let Chain { conditions, reach } = bound_chain(scope, parts.as_slice(), walk)?;
            Ok(Bound {
                condition: Condition::Or(conditions),
                reach,
                equality: None,
            })
        }
    }
}

// The same of the operands of a chain.
#[cycle(bound)]
fn bound_chain(scope: &Scope<'_>, parts: &[Cond], walk: &mut Walk) -> Result<Chain, BindFault>
    requires { walk.old.next + length (all_predicates parts.now) ≤ 2 ^ 32 }
    ensures refuses { RefusesBlock
        (predicates_fault scope.now walk.old.next (all_predicates parts.now)) result }
    ensures walks { OnOk result
        (Walks scope.now (all_predicates parts.now) walk.old walk.new) }
    ensures conditions { IfOk result (λ bound. chain (map filter_tree bound.conditions.items)
        ≡ bound_conditions scope.now (operands (map condition_tree parts.now))) }
    ensures reach { IfOk result (λ bound.
        bound.reach ≡ reach_of_all scope.now (operands (map condition_tree parts.now))) }
{
    let mut conditions = Vec::with_capacity(scope.alloc(), parts.len())?;
    let mut reach = Reach::Nothing;
    for i in 0..parts.len() {
        let bound = bound_condition(scope, &parts[i], walk)?;
        reach = reach.joined(bound.reach);
        conditions.push(bound.condition)?;
    }
    Ok(Chain { conditions, reach })
}

/// Adds the conjuncts of a condition. It is refused at the first predicate with a fault.
#[cycle(conjuncts)]
pub(crate) fn add_conjuncts(
    scope: &Scope<'_>,
    condition: &Cond,
    walk: &mut Walk,
    bound: &mut Vec<Bound>,
) -> Result<(), BindFault>
    requires { walk.old.next + length (predicates (condition_tree condition.now)) ≤ 2 ^ 32 }
    ensures refuses { RefusesBlock (predicates_fault scope.now walk.old.next
        (predicates (condition_tree condition.now))) result }
    ensures walks { OnOk result
        (Walks scope.now (predicates (condition_tree condition.now)) walk.old walk.new) }
    ensures added { OnOk result (AddsBound scope.now
        (conjuncts (condition_tree condition.now)) bound.old.items bound.new.items) }
{
    match condition {
        Cond::And(chain) => add_all(scope, chain.as_slice(), walk, bound),
        _ => {
            let conjunct = bound_condition(scope, condition, walk)?;
            bound.push(conjunct)?;
            Ok(())
        }
    }
}

// The same of the operands of a chain of AND.
#[cycle(conjuncts)]
fn add_all(
    scope: &Scope<'_>,
    chain: &[Cond],
    walk: &mut Walk,
    bound: &mut Vec<Bound>,
) -> Result<(), BindFault>
    requires { walk.old.next + length (all_predicates chain.now) ≤ 2 ^ 32 }
    ensures refuses { RefusesBlock
        (predicates_fault scope.now walk.old.next (all_predicates chain.now)) result }
    ensures walks { OnOk result
        (Walks scope.now (all_predicates chain.now) walk.old walk.new) }
    ensures added { OnOk result (AddsBound scope.now
        (all_conjuncts chain.now) bound.old.items bound.new.items) }
{
    for i in 0..chain.len() {
        add_conjuncts(scope, &chain[i], walk, bound)?;
    }
    Ok(())
}
