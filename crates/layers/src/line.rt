// Lines of data: `QUESTION ASKED | FROM => ANSWER`, of which the end may be left out from either sign on.
use std::alloc::Global;

// What a line asks, and the answer that it has to have.
#[derive(Clone, Copy)]
pub(crate) struct Line<'t> {
    pub(crate) question: &'t str,
    pub(crate) asked: &'t str,
    pub(crate) from: &'t str,
    pub(crate) answer: &'t str,
}

// The parts of a line. What isn't there is empty.
pub(crate) fn line_of(text: &str) -> Line<'_> {
    let (asked, answer) = text.split_once(" => ").unwrap_or((text, ""));
    let (question, asked) = asked.split_once(' ').unwrap_or((asked, ""));
    let (asked, from) = asked.split_once(" | ").unwrap_or((asked, ""));
    Line {
        question,
        asked,
        from,
        answer,
    }
}

// Numbers with a space between two.
pub(crate) fn numbers_of(alloc: Global, text: &str) -> Option<Vec<u32>> {
    let mut numbers = Vec::new(alloc);
    for word in text.split(' ') {
        let number = word.parse().ok()?;
        numbers.push(number).ok()?;
    }
    Some(numbers)
}

// The same, as text.
pub(crate) fn numbers_text(alloc: Global, numbers: &[u64]) -> Option<String> {
    let mut text = String::new(alloc);
    for number in numbers {
        if !text.is_empty() {
            text.push(' ').ok()?;
        }
        write!(text, "{number}").ok()?;
    }
    Some(text)
}
