// Words in pages of one size, each of them one block that is taken whole. All pages are full but the last one that has
// words; behind it pages may stand that are still empty. It never moves a word that is there.
ghost use Rattle.std.specs.Prelude.{◌≡◌, ◌+◌, ◌*◌, ◌<◌, ◌≤◌, [], ◌++◌, take, drop, length, max, OnOk, vec_len};
ghost use Rattle.heap_pages.specs.Limits.{page_words};
ghost use Rattle.heap_pages.specs.Layout.{words_of_pages, ArePackedPages, EndOn};
ghost use Rattle.heap_pages.specs.Changes.{Becomes};

use std::alloc::{AllocError, Global};
use std::marker::Model;

/// Words in pages of one size.
#[derive(Drop)]
pub(crate) struct Pages {
    alloc: Global,
    size: usize,
    pages: Vec<Vec<i64>>,
}

impl Model for Pages {
    ghost use Rattle.std.specs.Prelude.{vec_len};
    ghost use Rattle.heap_pages.specs.Layout.{PagesState, ArePackedPages, words_of_pages};

    ghost Value = { PagesState };

    ghost view = { λ p. record {
      size = p.size;
      words = words_of_pages p.pages.items;
      count = vec_len p.pages;
    } };

    ghost invariant = { λ p. ArePackedPages p.size p.pages.items };
}

// Takes pages until there are `count` of them. What is there stays, also where memory runs out.
fn add_pages(
    alloc: Global,
    size: usize,
    pages: &mut Vec<Vec<i64>>,
    count: usize,
) -> Result<(), AllocError>
    ensures kept { take (vec_len pages.old) pages.new.items ≡ pages.old.items }
    ensures words { words_of_pages pages.new.items ≡ words_of_pages pages.old.items }
    ensures packed { ArePackedPages size pages.old.items → ArePackedPages size pages.new.items }
    ensures count { OnOk result (vec_len pages.new ≡ max (vec_len pages.old) count) }
{
    for _number in pages.len()..count {
        pages.push(Vec::with_capacity(alloc, size)?)?;
    }
    Ok(())
}

// Lends `width` words from word `start` on.
fn part(words: &[i64], start: usize, width: usize) -> &[i64]
    requires { start + width ≤ length words.now }
    ensures { result.now ≡ take width (drop start words.now) }
{
    &words[start..start + width]
}

impl Pages {
    /// No pages, of `size` words each.
    pub(crate) fn new(alloc: Global, size: usize) -> Pages
        requires some { 1 ≤ size }
        requires few { size ≤ page_words }
        ensures { result ≡ record { size = size; words = []; count = 0 } }
    {
        Pages {
            alloc,
            size,
            pages: Vec::new(alloc),
        }
    }

    /// `width` words of page `number`, from word `start` of it.
    pub(crate) fn words_at(&self, number: usize, start: usize, width: usize) -> &[i64]
        requires some { 0 < width }
        requires on_page { start + width ≤ self.now.size }
        requires there { number * self.now.size + start + width ≤ length self.now.words }
        ensures { result.now ≡ take width (drop (number * self.now.size + start) self.now.words) }
    {
        part(&self.pages[number], start, width)
    }

    /// Takes pages until there are `count` of them, or none.
    pub(crate) fn reach(&mut self, count: usize) -> Result<(), AllocError>
        ensures { Becomes (record self.old { count = max self.old.count count }) self.old self.new result }
    {
        let present = self.pages.len();
        let added = add_pages(self.alloc, self.size, &mut self.pages, count);
        if added.is_err() {
            self.pages.truncate(present);
        }
        added
    }

    // How many words stand on page `number`, behind which no page has words.
    fn filled(&self, number: usize) -> usize
        requires { EndOn self.now number }
        ensures { number * self.now.size + result ≡ length self.now.words }
    {
        self.pages[number].len()
    }

    /// Puts words behind those that are there, all of them on page `number`.
    pub(crate) fn append(&mut self, number: usize, more: &[i64])
        requires last { EndOn self.old number }
        requires fits { length self.old.words + length more.now ≤ number * self.old.size + self.old.size }
        ensures { self.new ≡ record self.old { words = self.old.words ++ more.now } }
    {
        let Ok(()) = self.pages[number].extend_from_slice(more) else {
            unreachable!()
        };
    }

    /// Puts words behind those that are there, the first of them on page `first`.
    pub(crate) fn append_all(&mut self, first: usize, more: &[i64])
        requires begun { first * self.old.size ≤ length self.old.words }
        requires free { length self.old.words < first * self.old.size + self.old.size }
        requires room { length self.old.words + length more.now ≤ self.old.count * self.old.size }
        ensures { self.new ≡ record self.old { words = self.old.words ++ more.now } }
    {
        let mut number = first;
        let mut rest = more;
        while !rest.is_empty() {
            let free = self.size - self.filled(number);
            let piece = free.min(rest.len());
            self.append(number, &rest[..piece]);
            rest = &rest[piece..];
            number += 1;
        }
    }
}
