// The predicates of WHERE, in written order: their numbers, and the kinds of what they compare. A parameter has no kind
// of its own, and is given that of its predicate.
ghost use Rattle.std.specs.Prelude.{◌≡◌, ◌<◌, ◌+◌, ◌++◌, ◌^◌, OnOk, flat_map};
ghost use Rattle.sql_bind.specs.Located.{is_same_kind, first_kind, given_kind, parameters_among};
ghost use Rattle.sql_bind.specs.Names.{first_fault_among};
ghost use Rattle.sql_bind.specs.Predicates.{own_fault, alike_fault};
ghost use Rattle.sql_bind.specs.Refused.{RefusesBlock};

use crate::fault::BindFault;
use query_block::Kind;

/// How far a walk over the predicates has come.
#[derive(Drop)]
pub(crate) struct Walk {
    /// The number of the next predicate, from 1.
    pub(crate) next: u64,
    /// The kinds of the parameters so far, in written order.
    pub(crate) parameters: Vec<Kind>,
}

// Whether two kinds are the same.
fn is_same_kind(kind: Kind, other: Kind) -> bool
    ensures { result ≡ is_same_kind kind other }
{
    match kind {
        Kind::Integer => match other {
            Kind::Integer => true,
            Kind::Text => false,
        },
        Kind::Text => match other {
            Kind::Integer => false,
            Kind::Text => true,
        },
    }
}

// The kind of a predicate: that of its first operand that isn't a parameter.
fn first_kind(kinds: &[Option<Kind>]) -> Option<Kind>
    ensures { result ≡ first_kind kinds.now }
{
    for i in 0..kinds.len() {
        if let Some(kind) = kinds[i] {
            return Some(kind);
        }
    }
    None
}

// Refuses an operand of a predicate of this kind that has another of its own. A parameter has none, and adds the
// predicate's.
fn check_kind(
    own: Option<Kind>,
    kind: Kind,
    predicate: u32,
    parameters: &mut Vec<Kind>,
) -> Result<(), BindFault>
    ensures refuses { RefusesBlock (own_fault predicate kind own) result }
    ensures given { OnOk result
        (parameters.new.items ≡ parameters.old.items ++ given_kind kind own) }
{
    match own {
        None => {
            parameters.push(kind)?;
            Ok(())
        }
        Some(own) => {
            if !is_same_kind(kind, own) {
                return Err(BindFault::TypeMismatch { predicate });
            }
            Ok(())
        }
    }
}

// The same of operands from left to right.
fn check_kinds(
    kinds: &[Option<Kind>],
    kind: Kind,
    predicate: u32,
    parameters: &mut Vec<Kind>,
) -> Result<(), BindFault>
    ensures refuses { RefusesBlock (first_fault_among (own_fault predicate kind) kinds.now) result }
    ensures given { OnOk result
        (parameters.new.items ≡ parameters.old.items ++ flat_map (given_kind kind) kinds.now) }
{
    for i in 0..kinds.len() {
        check_kind(kinds[i], kind, predicate, parameters)?;
    }
    Ok(())
}

impl Walk {
    /// Refuses the next predicate if its operands, by the kinds of their own, aren't of one kind.
    pub(crate) fn check(&mut self, kinds: &[Option<Kind>]) -> Result<(), BindFault>
        requires { self.old.next < 2 ^ 32 }
        ensures refuses { RefusesBlock
            (alike_fault self.old.next (first_kind kinds.now) kinds.now) result }
        ensures next { OnOk result (self.new.next ≡ self.old.next + 1) }
        ensures given { OnOk result
            (self.new.parameters.items ≡ self.old.parameters.items ++ parameters_among kinds.now) }
    {
        let predicate = self.next as u32;
        let Some(kind) = first_kind(kinds) else {
            return Err(BindFault::TypeMismatch { predicate });
        };
        check_kinds(kinds, kind, predicate, &mut self.parameters)?;
        self.next += 1;
        Ok(())
    }
}
