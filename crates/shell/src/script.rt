// Reads a script: its statements, or why the whole of it is refused. It relies on the tokens and the grammar, and never
// carries anything out.
ghost use Rattle.std.specs.Prelude.{◌≡◌, ◌⊎◌, ℕ, ◌≤◌, List, length, All, Ok, map, IfOk, IfErr};
ghost use Rattle.sql_values.specs.Limits.{max_script_bytes};
ghost use Rattle.sql_lex.specs.Tokens.{IsFirstFault};
ghost use Rattle.sql_parse.specs.Trees.{statement_tree};
ghost use Rattle.sql_parse.specs.WellFormed.{IsWellFormed};
ghost use Rattle.sql_parse.specs.Counts.{HaveUpTo};
ghost use Rattle.shell.specs.Serve.{IsScript};
ghost use Rattle.shell.specs.Due.{RefusesScript};

use session::Refusal;
use sql_lex::{LexFault, LexKind, lex};
use sql_parse::{Statement, SyntaxFault};
use sql_values::{LimitName, MAX_SCRIPT_BYTES};
use std::alloc::Global;

/// Why a script isn't read.
#[derive(Drop)]
pub(crate) enum ScriptFault {
    /// The whole script is refused.
    Refused(Refusal),
    /// Out of memory.
    NoMemory,
}

// What a fault of tokens means for a script.
fn no_token(fault: LexFault) -> ScriptFault
    ensures { (script : List ℕ) → length script ≤ max_script_bytes →
        (fault.kind ≡ LexKind.NoMemory) ⊎ IsFirstFault script fault.place fault.kind →
        RefusesScript script result }
{
    match fault.kind {
        LexKind::NoMemory => ScriptFault::NoMemory,
        _ => ScriptFault::Refused(Refusal::NoToken(fault)),
    }
}

/// The statements of a script, in their order.
pub(crate) fn read_script(alloc: Global, script: &[u8]) -> Result<Vec<Statement>, ScriptFault>
    ensures read { IfOk result (λ statements.
        IsScript script.now (Ok (map statement_tree statements.items))) }
    ensures well_formed { IfOk result (λ statements.
        All (λ statement. IsWellFormed (statement_tree statement)) statements.items) }
    ensures counted { IfOk result (λ statements. HaveUpTo max_script_bytes statements.items) }
    ensures refused { IfErr result (RefusesScript script.now) }
{
    if script.len() as u64 > MAX_SCRIPT_BYTES {
        let value = MAX_SCRIPT_BYTES as u128 + 1;
        return Err(ScriptFault::Refused(Refusal::PastLimit(LimitName::Script, value)));
    }
    let tokens = match lex(alloc, script) {
        Ok(tokens) => tokens,
        Err(fault) => return Err(no_token(fault)),
    };
    match sql_parse::read_script(alloc, script, &tokens) {
        Ok(statements) => Ok(statements),
        Err(SyntaxFault::Syntax { place }) => {
            Err(ScriptFault::Refused(Refusal::NoStatement(place)))
        }
        Err(SyntaxFault::NoMemory) => Err(ScriptFault::NoMemory),
    }
}
