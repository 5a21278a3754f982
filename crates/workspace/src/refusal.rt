// Why a script or a statement is refused: each refusal is a value, and becomes its line here alone.
ghost use Rattle.std.specs.Prelude.{◌≡◌, ◌++◌, IfOk, OnOk};
ghost use Rattle.workspace.specs.Refusal.{line_of, error_line, limit_line, no_table_line, no_column_line, duplicate_line, not_made_line, not_bound_line, field_line, fields_line, not_loaded_line, no_token_line, spaced, token_fault_word, stale_line, not_fitting_line, not_opened_line};

use bouquet_file::{OpenFault, path_text};
use cost_model::Stale;
use csv_load::LoadFault;
use db_catalog::DbFault;
use itoa::Buffer;
use query_block::ValueFault;
use sql_bind::BindFault;
use sql_lex::{LexFault, LexKind};
use sql_parse::Name;
use sql_values::{LimitName, Text};
use std::alloc::{AllocError, Global};

/// Why a script or a statement is refused.
#[derive(Drop)]
pub enum Refusal {
    /// The script has no tokens.
    NoToken(LexFault),
    /// The piece that begins at this byte, from 0, is no statement.
    NoStatement(usize),
    /// There is no table of this name.
    NoTable(Name),
    /// The table has no column of this name.
    NoColumn(Name),
    /// The database refuses a table or an index.
    NotMade(DbFault),
    /// The query can't be bound.
    NotBound(BindFault),
    /// A bouquet has this name already.
    NameTaken(Name),
    /// There is no bouquet of this name.
    NoBouquet(Name),
    /// A count of a table isn't what it was when the bouquet was compiled.
    IsStale(Stale),
    /// The values don't fit the parameters of the bouquet's query.
    NotFitting(ValueFault),
    /// The folder has no file of this name.
    AbsentFile(Text),
    /// The file gives no rows to its table.
    NotLoaded(LoadFault),
    /// The file is no bouquet of the query over the tables.
    NotOpened(OpenFault),
    /// A quantity is past its limit, with this value.
    PastLimit(LimitName, u128),
    /// The work of a query, or of all plans of an audit, is past the most that one may cost.
    PastWork {
        /// So many units were spent on it.
        spent: u128,
        /// The book has them: those of SELECT and RUN are entered there, those of a run that learns and of an audit are not.
        entered: bool,
    },
    /// So many bouquets are to take turns, which are more than 64.
    TooManyJobs(usize),
    /// No bouquet that takes turns has this number.
    NoTurn(u64),
}

// `error `, the kind of the refusal, and what it is about.
fn error_line(alloc: Global, kind: &str, about: &[u8]) -> Result<Vec<u8>, AllocError>
    ensures { IfOk result (λ line. line.items ≡ error_line (kind.now ++ about.now)) }
{
    let mut line = Vec::from_slice(alloc, b"error ")?;
    line.extend_from_slice(kind.as_bytes())?;
    line.extend_from_slice(about)?;
    line.push(b'\n')?;
    Ok(line)
}

// The same with a number behind a space at the end.
fn number_line(alloc: Global, kind: &str, about: &str, number: u128) -> Result<Vec<u8>, AllocError>
    ensures { IfOk result (λ line. line.items
        ≡ error_line (kind.now ++ (about.now ++ spaced number))) }
{
    let mut line = Vec::from_slice(alloc, b"error ")?;
    line.extend_from_slice(kind.as_bytes())?;
    line.extend_from_slice(about.as_bytes())?;
    push_number(&mut line, number)?;
    line.push(b'\n')?;
    Ok(line)
}

// A space and a number.
fn push_number(line: &mut Vec<u8>, number: u128) -> Result<(), AllocError>
    ensures { OnOk result (line.new.items ≡ line.old.items ++ spaced number) }
{
    line.push(b' ')?;
    line.extend_from_slice(Buffer::new().format(number).as_bytes())
}

// The line of a limit.
fn limit_line(alloc: Global, limit: LimitName, value: u128) -> Result<Vec<u8>, AllocError>
    ensures { IfOk result (λ line. line.items ≡ limit_line limit value) }
{
    number_line(alloc, "E12 limit ", limit.word(), value)
}

// What is wrong with the first byte that begins no token. Out of memory refuses nothing.
fn token_fault_word(kind: LexKind) -> &'static str
    ensures { result.now ≡ token_fault_word kind }
{
    match kind {
        LexKind::Byte => "byte",
        LexKind::OpenText => "text",
        LexKind::Number => "number",
        LexKind::Name => "name",
        LexKind::Utf8 => "utf8",
        LexKind::NoMemory => "",
    }
}

// There is no table of this name.
fn no_table_line(alloc: Global, name: &[u8]) -> Result<Vec<u8>, AllocError>
    ensures { IfOk result (λ line. line.items ≡ no_table_line name.now) }
{
    error_line(alloc, "E03 table ", name)
}

// There is no column of this name.
fn no_column_line(alloc: Global, name: &[u8]) -> Result<Vec<u8>, AllocError>
    ensures { IfOk result (λ line. line.items ≡ no_column_line name.now) }
{
    error_line(alloc, "E04 column ", name)
}

// This name stands already.
fn duplicate_line(alloc: Global, name: &[u8]) -> Result<Vec<u8>, AllocError>
    ensures { IfOk result (λ line. line.items ≡ duplicate_line name.now) }
{
    error_line(alloc, "E06 duplicate ", name)
}

// The line of a database's refusal. Out of memory refuses nothing.
fn not_made_line(alloc: Global, fault: &DbFault) -> Result<Vec<u8>, AllocError>
    ensures { IfOk result (λ line. line.items ≡ not_made_line fault.now) }
{
    match fault {
        DbFault::Duplicate { name } => duplicate_line(alloc, name.bytes()),
        DbFault::Limit { name, value } => limit_line(alloc, *name, *value),
        DbFault::NoMemory => error_line(alloc, "", b""),
    }
}

// The line of a query that can't be bound. Out of memory refuses nothing.
fn not_bound_line(alloc: Global, fault: &BindFault) -> Result<Vec<u8>, AllocError>
    ensures { IfOk result (λ line. line.items ≡ not_bound_line fault.now) }
{
    match fault {
        BindFault::UnknownTable { name } => no_table_line(alloc, name.bytes()),
        BindFault::UnknownColumn { name } => no_column_line(alloc, name.bytes()),
        BindFault::Ambiguous { name } => error_line(alloc, "E05 ambiguous ", name.bytes()),
        BindFault::DuplicateAlias { name } => duplicate_line(alloc, name.bytes()),
        BindFault::TypeMismatch { predicate } => {
            number_line(alloc, "E07 ", "type", u128::from(*predicate))
        }
        BindFault::PredicateForm { conjunct } => {
            number_line(alloc, "E08 ", "predicate", u128::from(*conjunct))
        }
        BindFault::Limit { name, value } => limit_line(alloc, *name, *value),
        BindFault::NoMemory => error_line(alloc, "", b""),
    }
}

// What is wrong with a field, and where.
fn field_line(alloc: Global, kind: &str, entry: u64, field: u32) -> Result<Vec<u8>, AllocError>
    ensures { IfOk result (λ line. line.items ≡ field_line kind.now entry field) }
{
    let mut line = Vec::from_slice(alloc, b"error E11 ")?;
    line.extend_from_slice(kind.as_bytes())?;
    push_number(&mut line, u128::from(entry))?;
    push_number(&mut line, u128::from(field))?;
    line.push(b'\n')?;
    Ok(line)
}

// An entry that hasn't a field for each column.
fn fields_line(alloc: Global, entry: u64, found: u64, wanted: u64) -> Result<Vec<u8>, AllocError>
    ensures { IfOk result (λ line. line.items ≡ fields_line entry found wanted) }
{
    let mut line = Vec::from_slice(alloc, b"error E10 fields")?;
    push_number(&mut line, u128::from(entry))?;
    push_number(&mut line, u128::from(found))?;
    push_number(&mut line, u128::from(wanted))?;
    line.push(b'\n')?;
    Ok(line)
}

// The line of a file that gives no rows. Out of memory refuses nothing.
fn not_loaded_line(alloc: Global, fault: &LoadFault) -> Result<Vec<u8>, AllocError>
    ensures { IfOk result (λ line. line.items ≡ not_loaded_line fault.now) }
{
    match fault {
        LoadFault::Header { field } => number_line(alloc, "E10 ", "header", u128::from(*field)),
        LoadFault::FieldCount {
            entry,
            found,
            wanted,
        } => fields_line(alloc, *entry, *found, *wanted),
        LoadFault::NotUtf8 { entry, field } => field_line(alloc, "utf8", *entry, *field),
        LoadFault::NotInteger { entry, field } => field_line(alloc, "integer", *entry, *field),
        LoadFault::OutOfRange { entry, field } => field_line(alloc, "range", *entry, *field),
        LoadFault::NullInNotNull { entry, field } => field_line(alloc, "null", *entry, *field),
        LoadFault::TooLong { entry, field } => field_line(alloc, "long", *entry, *field),
        LoadFault::Limit { name, value } => limit_line(alloc, *name, *value),
        LoadFault::NoMemory => error_line(alloc, "", b""),
    }
}

// The line of a script without tokens.
fn no_token_line(alloc: Global, fault: &LexFault) -> Result<Vec<u8>, AllocError>
    ensures { IfOk result (λ line. line.items ≡ no_token_line fault.now) }
{
    number_line(
        alloc,
        "E01 ",
        token_fault_word(fault.kind),
        fault.place as u128,
    )
}

// The line of a count that isn't what it was.
fn stale_line(alloc: Global, stale: &Stale) -> Result<Vec<u8>, AllocError>
    ensures { IfOk result (λ line. line.items ≡ stale_line stale.now) }
{
    let mut line = Vec::from_slice(alloc, b"error E15 stale")?;
    push_number(&mut line, u128::from(stale.relation))?;
    line.push(b' ')?;
    line.extend_from_slice(stale.count.word().as_bytes())?;
    push_number(&mut line, u128::from(stale.kept))?;
    push_number(&mut line, u128::from(stale.present))?;
    line.push(b'\n')?;
    Ok(line)
}

// The line of values that don't fit.
fn not_fitting_line(alloc: Global, fault: ValueFault) -> Result<Vec<u8>, AllocError>
    ensures { IfOk result (λ line. line.items ≡ not_fitting_line fault) }
{
    match fault {
        ValueFault::Count { given, wanted } => {
            let mut line = Vec::from_slice(alloc, b"error E17 count")?;
            push_number(&mut line, u128::from(given))?;
            push_number(&mut line, u128::from(wanted))?;
            line.push(b'\n')?;
            Ok(line)
        }
        ValueFault::Kind { place } => number_line(alloc, "E17 ", "kind", u128::from(place)),
    }
}

// The line of a file that is no bouquet. Out of memory refuses nothing.
fn not_opened_line(alloc: Global, fault: OpenFault) -> Result<Vec<u8>, AllocError>
    ensures { IfOk result (λ line. line.items ≡ not_opened_line fault) }
{
    match fault {
        OpenFault::Stale(stale) => stale_line(alloc, &stale),
        _ => error_line(alloc, "E14 file ", &path_text(alloc, fault)?),
    }
}

/// The line that a refusal puts.
pub fn refusal_line(alloc: Global, refusal: &Refusal) -> Result<Vec<u8>, AllocError>
    ensures { IfOk result (λ line. line.items ≡ line_of refusal.now) }
{
    match refusal {
        Refusal::NoToken(fault) => no_token_line(alloc, fault),
        Refusal::NoStatement(place) => number_line(alloc, "E02 ", "syntax", *place as u128),
        Refusal::NoTable(name) => no_table_line(alloc, name.bytes()),
        Refusal::NoColumn(name) => no_column_line(alloc, name.bytes()),
        Refusal::NotMade(fault) => not_made_line(alloc, fault),
        Refusal::NotBound(fault) => not_bound_line(alloc, fault),
        Refusal::NameTaken(name) => duplicate_line(alloc, name.bytes()),
        Refusal::NoBouquet(name) => error_line(alloc, "E13 bouquet ", name.bytes()),
        Refusal::IsStale(stale) => stale_line(alloc, stale),
        Refusal::NotFitting(fault) => not_fitting_line(alloc, *fault),
        Refusal::AbsentFile(name) => error_line(alloc, "E09 absent ", name.bytes()),
        Refusal::NotLoaded(fault) => not_loaded_line(alloc, fault),
        Refusal::NotOpened(fault) => not_opened_line(alloc, *fault),
        Refusal::PastLimit(limit, value) => limit_line(alloc, *limit, *value),
        Refusal::PastWork { spent, .. } => number_line(alloc, "E16 ", "work", *spent),
        Refusal::TooManyJobs(count) => number_line(alloc, "E12 limit ", "jobs", *count as u128),
        Refusal::NoTurn(number) => number_line(alloc, "E12 limit ", "turn", u128::from(*number)),
    }
}
