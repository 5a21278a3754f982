// Operands with their columns looked up, each once.
ghost use Rattle.std.specs.Prelude.{◌≡◌, ◌∷◌, IfOk, None, map};
ghost use Rattle.query_block.specs.Blocks.{is_text};
ghost use Rattle.sql_parse.specs.declared.tree.Term.TheVariants.{Column};
ghost use Rattle.sql_bind.specs.Located.{kind_in, kind_if, kinds_of, located};
ghost use Rattle.sql_bind.specs.Names.{written_column_fault, first_fault_among};
ghost use Rattle.sql_bind.specs.Predicates.{term_fault};
ghost use Rattle.sql_bind.specs.Refused.{RefusesBlock};
ghost use Rattle.sql_bind.specs.Conjuncts.{reach_of_terms};

use crate::fault::BindFault;
use crate::names::place_of;
use crate::reach::{Reach, reach_at};
use crate::scope::Scope;
use query_block::{ColumnAt, Kind, Operand, holds_texts};
use sql_parse::{ColRef, Term};
use sql_values::{ColumnType, Value};

/// An operand with its column looked up.
#[derive(Drop)]
pub(crate) struct Located {
    /// The operand, with its column by number.
    pub(crate) operand: Operand,
    /// The place of its column, if it is one.
    pub(crate) place: Option<ColumnAt>,
    /// Its kind; a parameter has none of its own.
    pub(crate) kind: Option<Kind>,
}

/// The operands of a list.
#[derive(Drop)]
pub(crate) struct Listed {
    pub(crate) operands: Vec<Operand>,
    /// The kind of each, behind that of the operand before the list.
    pub(crate) kinds: Vec<Option<Kind>>,
    /// Of which relations their columns are.
    pub(crate) reach: Reach,
}

// What a column holds; of one that isn't there, INTEGER.
fn kind_in(scope: &Scope<'_>, place: ColumnAt) -> ColumnType
    ensures { result ≡ kind_in scope.now place }
{
    let Some(table) = scope.tables().get(place.relation as usize) else {
        return ColumnType::Integer;
    };
    match table.columns.get(place.column as usize) {
        Some(column) => column.kind,
        None => ColumnType::Integer,
    }
}

fn is_text(value: &Value) -> bool
    ensures { result ≡ is_text value.now }
{
    match value {
        Value::Text(_) => true,
        _ => false,
    }
}

// The kind of texts, or of numbers.
fn kind_if(text: bool) -> Kind
    ensures { result ≡ kind_if text }
{
    if text { Kind::Text } else { Kind::Integer }
}

// An operand that isn't a column.
fn without_column(operand: Operand, kind: Option<Kind>) -> Located
    ensures { result ≡ record { operand = operand; place = None; kind = kind } }
{
    Located {
        operand,
        place: None,
        kind,
    }
}

// A column at its place.
fn locate_column(scope: &Scope<'_>, written: &ColRef) -> Result<Located, BindFault>
    ensures refuses { RefusesBlock (written_column_fault scope.now written.now) result }
    ensures located { IfOk result (λ one. one ≡ located scope.now (Column written.now)) }
{
    let place = place_of(scope, written)?;
    let kind = kind_if(holds_texts(kind_in(scope, place)));
    Ok(Located {
        operand: Operand::Column(place.column),
        place: Some(place),
        kind: Some(kind),
    })
}

/// An operand with its column looked up.
pub(crate) fn locate(scope: &Scope<'_>, term: &Term) -> Result<Located, BindFault>
    ensures refuses { RefusesBlock (term_fault scope.now term.now) result }
    ensures located { IfOk result (λ one. one ≡ located scope.now term.now) }
{
    match term {
        Term::Column(written) => locate_column(scope, written),
        Term::Literal(value) => {
            let kind = kind_if(is_text(value));
            Ok(without_column(Operand::Literal(value.clone()?), Some(kind)))
        }
        Term::Parameter(number) => Ok(without_column(Operand::Parameter(*number), None)),
    }
}

/// The operands of a list, behind one of this kind.
pub(crate) fn locate_list(
    scope: &Scope<'_>,
    first: Option<Kind>,
    terms: &[Term],
) -> Result<Listed, BindFault>
    ensures refuses { RefusesBlock (first_fault_among (term_fault scope.now) terms.now) result }
    ensures operands { IfOk result (λ listed.
        listed.operands.items ≡ map (λ term. (located scope.now term).operand) terms.now) }
    ensures kinds { IfOk result (λ listed.
        listed.kinds.items ≡ first ∷ kinds_of scope.now terms.now) }
    ensures reach { IfOk result (λ listed. listed.reach ≡ reach_of_terms scope.now terms.now) }
{
    let alloc = scope.alloc();
    let mut operands = Vec::with_capacity(alloc, terms.len())?;
    let mut kinds = Vec::with_capacity(alloc, terms.len() + 1)?;
    kinds.push(first)?;
    let mut reach = Reach::Nothing;
    for i in 0..terms.len() {
        let Located {
            operand,
            place,
            kind,
        } = locate(scope, &terms[i])?;
        reach = reach.joined(reach_at(place));
        kinds.push(kind)?;
        operands.push(operand)?;
    }
    Ok(Listed {
        operands,
        kinds,
        reach,
    })
}
