// The statements of a script.

ghost use Rattle.std.specs.Prelude.{◌≡◌, ℕ, ◌≤◌, ◌<◌, ◌+◌, ◌^◌, List, [], ◌∷◌, ◌++◌, option_map, map, length, take, drop, IfOk, IfErr};
ghost use Rattle.std.specs.List.{All};
ghost use Rattle.sql_lex.specs.Once.{AtLeastOne, AtMostOne};
ghost use Rattle.sql_lex.specs.Tokens.{IsToken, Tokens};
ghost use Rattle.sql_lex.specs.declared.token.Token.{Token};
ghost use Rattle.sql_parse.specs.Lexemes.{Lexeme, lexeme, lexemes};
ghost use Rattle.sql_parse.specs.Trees.{StatementTree, statement_tree};
ghost use Rattle.sql_parse.specs.Statements.{IsStatement, statement_of};
ghost use Rattle.sql_parse.specs.Script.{is_semicolon, split, split_after, AreStatements, IsParsing, IsCause};
ghost use Rattle.sql_parse.specs.WellFormed.{AreWellFormed};
ghost use Rattle.sql_parse.specs.Counts.{operands_in, of_condition, condition_of, HaveUpTo};
ghost use Rattle.sql_parse.specs.Reading.{Gives};

use crate::fault::{ReadFault, SyntaxFault};
use crate::piece::Piece;
use crate::statement::{Statement, whole_statement};
use sql_lex::{Token, TokenKind};
use std::alloc::Global;

/// The grammar is unambiguous: two statements of the same tokens are the same.
pub fn one_statement()
    ensures { (tokens : List Lexeme) → AtMostOne (IsStatement tokens) }
{}

/// The law of counts: no statement has more operands, and so more predicates, than tokens.
pub fn operands_are_tokens()
    ensures { (tokens : List Lexeme) (tree : StatementTree) → IsStatement tokens tree →
        of_condition operands_in (condition_of tree) ≤ length tokens }
{}

/// The law of reading: tokens are statements, or have a first piece that is none, and are read in no second way.
/// Tokens with statements have these alone and no such piece; those with such a piece have this one alone and no
/// statements. So where a script has statements, `read_script` returns these, and where it has such a piece, refuses it
/// there, or is out of memory.
pub fn one_parsing_is_due()
    ensures some { (script : List ℕ) (tokens : List Token) → AtLeastOne (IsParsing script tokens) }
    ensures one { (script : List ℕ) (tokens : List Token) → AtMostOne (IsParsing script tokens) }
{}

/// The statements of a script, in order: one for each piece between semicolons that isn't empty.
///
/// Keywords and names are in any case; names come out in upper case (SQL-92, 5.2). Parentheses around conditions nest
/// at most 32 deep. The `?` of a statement are numbered from 0 in written order. `Syntax` names the start of the first
/// piece that is no statement. A script all of whose pieces are statements is refused only where memory runs out. 2^32
/// tokens or more count as that, since a parameter's number has 32 bits. It takes time in proportion to the tokens, and
/// its depth on the stack is bounded by the nesting of parentheses.
pub fn read_script(
    alloc: Global,
    text: &[u8],
    tokens: &[Token],
) -> Result<Vec<Statement>, SyntaxFault>
    requires { Tokens text.now tokens.now }
    ensures found { IfOk result (λ read.
        AreStatements text.now tokens.now (map statement_tree read.items)) }
    ensures well_formed { IfOk result (λ read. AreWellFormed read.items) }
    ensures counted { IfOk result (λ read. HaveUpTo (length tokens.now) read.items) }
    ensures refused { IfErr result (IsCause text.now tokens.now) }
{
    if tokens.len() > u32::MAX as usize {
        return Err(SyntaxFault::NoMemory);
    }
    read(alloc, text, tokens)
}

fn read(alloc: Global, text: &[u8], tokens: &[Token]) -> Result<Vec<Statement>, SyntaxFault>
    requires each { All (IsToken text.now) tokens.now }
    requires few { length tokens.now < 2 ^ 32 }
    ensures found { IfOk result (λ read.
        AreStatements text.now tokens.now (map statement_tree read.items)) }
    ensures refused { IfErr result (IsCause text.now tokens.now) }
{
    let mut statements = Vec::new(alloc);
    let mut rest = tokens;
    while !rest.is_empty() {
        let end = piece_end(text, rest);
        if end > 0 {
            match add_statement(alloc, &mut statements, text, &rest[..end]) {
                Ok(()) => {}
                Err(ReadFault::NotAStatement) => {
                    let place = rest[0].start;
                    return Err(SyntaxFault::Syntax { place });
                }
                Err(ReadFault::NoMemory) => return Err(SyntaxFault::NoMemory),
            }
        }
        rest = tokens_after(rest, end);
    }
    Ok(statements)
}

// Adds the statement of a piece.
fn add_statement(
    alloc: Global,
    statements: &mut Vec<Statement>,
    text: &[u8],
    piece: &[Token],
) -> Result<(), ReadFault>
    requires each { All (IsToken text.now) piece.now }
    requires few { length piece.now < 2 ^ 32 }
    ensures { Gives (λ _. map statement_tree statements.new.items) result
        (option_map (λ tree. map statement_tree statements.old.items ++ tree ∷ [])
        (statement_of (lexemes text.now piece.now))) }
{
    let statement = whole_statement(alloc, Piece::new(text, piece))?;
    statements.push(statement)?;
    Ok(())
}

// The tokens after the one at a place, or none where the place is their end.
fn tokens_after(tokens: &[Token], place: usize) -> &[Token]
    requires { place ≤ length tokens.now }
    ensures { result.now ≡ drop (place + 1) tokens.now }
{
    if place < tokens.len() {
        &tokens[place + 1..]
    } else {
        &tokens[place..]
    }
}

// The place of the first semicolon, or the number of the tokens.
fn piece_end(text: &[u8], tokens: &[Token]) -> usize
    requires { All (IsToken text.now) tokens.now }
    ensures within { result ≤ length tokens.now }
    ensures split { split text.now tokens.now
        ≡ take result tokens.now ∷ split_after text.now (drop result tokens.now) }
{
    let mut end = 0;
    while end < tokens.len() && !is_semicolon(text, &tokens[end]) {
        end += 1;
    }
    end
}

fn is_semicolon(text: &[u8], token: &Token) -> bool
    requires { IsToken text.now token.now }
    ensures { result ≡ is_semicolon (lexeme text.now token.now) }
{
    match token.kind {
        TokenKind::Sign => &text[token.start..token.end] == b";".as_slice(),
        _ => false,
    }
}
