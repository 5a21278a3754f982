// The words of a column that an index on it has to look for: those that meet each conjunct of a filter that the index can
// use. A conjunct with a parameter leaves nothing out. Of texts only one word is looked for.
ghost use Rattle.std.specs.Prelude.{◌≡◌, ◌&&◌, ◌||◌, ℤ, true, not, All, List, filter, map, int_le, int_lt};
ghost use Rattle.std.specs.Ordering.{int_cmp};
ghost use Rattle.sql_values.specs.declared.column.ColumnType.{ColumnType};
ghost use Rattle.sql_values.specs.declared.column.ColumnType.TheVariants.{Integer};
ghost use Rattle.sql_values.specs.declared.value.Value.{Value};
ghost use Rattle.sql_values.specs.declared.value.Value.TheVariants as value;
ghost use Rattle.sql_values.specs.declared.op.Op.TheVariants.{Eq, Le, Ge};
ghost use Rattle.sql_values.specs.Truth.{comparison, holds};
ghost use Rattle.query_block.specs.Blocks.{holds_texts, FitsColumns};
ghost use Rattle.query_block.specs.declared.kind.Kind.{Kind};
ghost use Rattle.query_block.specs.Conditions.{filter_tree, Compare, Between};
ghost use Rattle.query_block.specs.Meaning.{is_true};
ghost use Rattle.plan_tree.specs.Usable.{is_fixed_usable, is_range};
ghost use Rattle.plan_tree.specs.Ranges.{is_in, Finds, IsLiteralOf, Narrows, NarrowsBy, NarrowsWords};

use query_block::{Condition, Operand};
use sql_values::{ColumnType, Op, Texts, Value};

/// Words from the first to the second, both included. There are none where the first is greater.
#[derive(Clone, Copy)]
pub struct WordRange {
    /// The least word.
    pub from: i64,
    /// The greatest word.
    pub to: i64,
}

const EVERY_WORD: WordRange = WordRange {
    from: i64::MIN,
    to: i64::MAX,
};

const NO_WORD: WordRange = WordRange {
    from: i64::MAX,
    to: i64::MIN,
};

// Of a range those from this word on.
fn from_on(range: WordRange, word: i64) -> WordRange
    ensures { (w : ℤ) → is_in result w ≡ (is_in range w && int_le word w) }
{
    if word <= range.from {
        return range;
    }
    WordRange {
        from: word,
        to: range.to,
    }
}

// Of a range those up to this word.
fn up_to(range: WordRange, word: i64) -> WordRange
    ensures { (w : ℤ) → is_in result w ≡ (is_in range w && int_le w word) }
{
    if range.to <= word {
        return range;
    }
    WordRange {
        from: range.from,
        to: word,
    }
}

// Those past this word.
fn past(range: WordRange, word: i64) -> WordRange
    ensures { NarrowsWords range result (λ w. int_lt word w) }
{
    if word == i64::MAX {
        return NO_WORD;
    }
    from_on(range, word + 1)
}

// Those before this word.
fn before(range: WordRange, word: i64) -> WordRange
    ensures { NarrowsWords range result (λ w. int_lt w word) }
{
    if word == i64::MIN {
        return NO_WORD;
    }
    up_to(range, word - 1)
}

// Those that stand in this relation to a word. Nothing is left out where no range meets the operator.
fn by_word(range: WordRange, op: Op, word: i64) -> WordRange
    ensures { NarrowsWords range result
        (λ w. not (is_range Integer op) || holds op (int_cmp w word)) }
{
    match op {
        Op::Eq => up_to(from_on(range, word), word),
        Op::Ne => range,
        Op::Lt => before(range, word),
        Op::Le => up_to(range, word),
        Op::Gt => past(range, word),
        Op::Ge => from_on(range, word),
    }
}

// The operator that holds of two values the other way round.
#[tactic(auto, using(crate::proofs::Narrowing::same_turned))]
fn turned(op: Op) -> Op
    ensures turned { (a b : Value) → comparison op a b ≡ comparison result b a }
    ensures range { (kind : ColumnType) → is_range kind result ≡ is_range kind op }
{
    match op {
        Op::Eq => Op::Eq,
        Op::Ne => Op::Ne,
        Op::Lt => Op::Gt,
        Op::Le => Op::Ge,
        Op::Gt => Op::Lt,
        Op::Ge => Op::Le,
    }
}

// The word of a text alone, where some row has the text.
fn by_text(range: WordRange, text: &[u8], texts: &Texts) -> WordRange
    ensures { (kind : ColumnType) → holds_texts kind ≡ true → Narrows texts.now kind range result
        (λ v. is_true (comparison Eq v (value.Text text.now))) }
{
    match texts.code_of(text) {
        Some(code) => by_word(range, Op::Eq, code),
        None => NO_WORD,
    }
}

// The words of values that stand in this relation to a literal.
fn by_literal(range: WordRange, op: Op, literal: &Value, texts: &Texts) -> WordRange
    ensures { (kind : ColumnType) → IsLiteralOf kind literal.now
        → Narrows texts.now kind range result
        (λ v. not (is_range kind op) || is_true (comparison op v literal.now)) }
{
    match literal {
        Value::Null => range,
        Value::Int(number) => by_word(range, op, *number),
        Value::Text(text) => match op {
            Op::Eq => by_text(range, text.bytes(), texts),
            Op::Ne | Op::Lt | Op::Le | Op::Gt | Op::Ge => range,
        },
    }
}

// The words of values between two literals. Texts have no such range.
fn by_bounds(range: WordRange, low: &Value, high: &Value, texts: &Texts) -> WordRange
    ensures { (kind : ColumnType) → IsLiteralOf kind low.now → IsLiteralOf kind high.now
        → Narrows texts.now kind range result
        (λ v. holds_texts kind || (is_true (comparison Ge v low.now) && is_true (comparison Le v high.now))) }
{
    let above = by_literal(range, Op::Ge, low, texts);
    by_literal(above, Op::Le, high, texts)
}

// The words of the rows that meet a comparison, where an index on the column can use it.
fn by_compare(
    range: WordRange,
    column: u8,
    op: Op,
    sides: (&Operand, &Operand),
    texts: &Texts,
) -> WordRange
    ensures { NarrowsBy texts.now column range result
        (Compare op sides.entry.0.now sides.entry.1.now) }
{
    let (left, right) = sides;
    match left {
        Operand::Column(of) => match right {
            Operand::Column(_) => range,
            Operand::Parameter(_) => range,
            Operand::Literal(literal) => {
                if *of != column {
                    return range;
                }
                by_literal(range, op, literal, texts)
            }
        },
        Operand::Literal(literal) => match right {
            Operand::Column(of) => {
                if *of != column {
                    return range;
                }
                by_literal(range, turned(op), literal, texts)
            }
            Operand::Literal(_) => range,
            Operand::Parameter(_) => range,
        },
        Operand::Parameter(_) => range,
    }
}

// The words of the rows in which an operand lies between two others, where an index on the column can use that.
fn by_between(
    range: WordRange,
    column: u8,
    of: &Operand,
    bounds: (&Operand, &Operand),
    texts: &Texts,
) -> WordRange
    ensures { NarrowsBy texts.now column range result
        (Between of.now bounds.entry.0.now bounds.entry.1.now) }
{
    let (low, high) = bounds;
    match of {
        Operand::Literal(_) => range,
        Operand::Parameter(_) => range,
        Operand::Column(of) => match low {
            Operand::Column(_) => range,
            Operand::Parameter(_) => range,
            Operand::Literal(low) => match high {
                Operand::Column(_) => range,
                Operand::Parameter(_) => range,
                Operand::Literal(high) => {
                    if *of != column {
                        return range;
                    }
                    by_bounds(range, low, high, texts)
                }
            },
        },
    }
}

// The words of the rows that meet a conjunct, where an index on the column can use it.
fn narrowed(range: WordRange, column: u8, conjunct: &Condition, texts: &Texts) -> WordRange
    ensures { NarrowsBy texts.now column range result (filter_tree conjunct.now) }
{
    match conjunct {
        Condition::Compare(op, left, right) => by_compare(range, column, *op, (left, right), texts),
        Condition::Between(of, low, high) => by_between(range, column, of, (low, high), texts),
        Condition::OneOf(_, _) => range,
        Condition::IsNull(_) => range,
        Condition::Not(_) => range,
        Condition::And(_) => range,
        Condition::Or(_) => range,
    }
}

/// The words of a column in the rows that meet each conjunct of a filter that an index on the column can use and that has no
/// parameter.
pub fn range_of(column: u8, conjuncts: &[Condition], texts: &Texts) -> WordRange
    ensures { (kinds : List Kind) (columns : List ColumnType) →
        All (FitsColumns kinds columns) (map filter_tree conjuncts.now) →
        Finds texts.now columns column result
        (filter (is_fixed_usable columns column) (map filter_tree conjuncts.now)) }
{
    let mut range = EVERY_WORD;
    for conjunct in conjuncts {
        range = narrowed(range, column, conjunct, texts);
    }
    range
}
