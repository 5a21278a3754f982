// The values that are put in the places of parameters: whether they fit. Nothing here takes memory.
ghost use Rattle.std.specs.Prelude.{◌≡◌, ◌<◌, ◌^◌, length};
ghost use Rattle.query_block.specs.Values.{due_of, is_of_kind, value_fault};

use crate::kind::Kind;
use sql_values::Value;

/// Why values don't fit the parameters of a block.
#[derive(Clone, Copy)]
pub enum ValueFault {
    /// There are more or fewer values than parameters.
    Count { given: u64, wanted: u64 },
    /// The value at this place, from 1, is NULL or not of its parameter's kind.
    Kind { place: u32 },
}

// Whether a value is of a kind.
fn is_of_kind(kind: Kind, value: &Value) -> bool
    ensures { result ≡ is_of_kind kind value.now }
{
    match value {
        Value::Null => false,
        Value::Int(_) => match kind {
            Kind::Integer => true,
            Kind::Text => false,
        },
        Value::Text(_) => match kind {
            Kind::Integer => false,
            Kind::Text => true,
        },
    }
}

/// Whether these values fit parameters of these kinds, or the first fault.
pub(crate) fn fits_kinds(kinds: &[Kind], values: &[Value]) -> Result<(), ValueFault>
    requires { length kinds.now < 2 ^ 32 }
    ensures { result ≡ due_of (value_fault kinds.now values.now) }
{
    if values.len() != kinds.len() {
        return Err(ValueFault::Count {
            given: values.len() as u64,
            wanted: kinds.len() as u64,
        });
    }
    for place in 0..kinds.len() {
        if !is_of_kind(kinds[place], &values[place]) {
            return Err(ValueFault::Kind {
                place: place as u32 + 1,
            });
        }
    }
    Ok(())
}
