// The files of the demonstration, and the folder that holds them.
ghost use Rattle.std.specs.Prelude.{◌≡◌, ◌≤◌, ◌*◌, ◌%◌, IfOk};
ghost use Rattle.demo_data.specs.Demo.{greatest_demo, demo_files, entry_line, file_of_entries};
ghost use Rattle.demo_data.specs.Demo.{customers_file, orders_file, lines_file};

use crate::entries::push_ten;
use outside_io::NeverFailsFolder;
use std::alloc::{AllocError, Global};

/// The greatest number of a demonstration, from which a file has 800000 entries.
pub const MAX_DEMO: u32 = 2000;

// The most bytes of a header, and of an entry with the end of its line, as `399999,99999`.
const HEADER_BYTES: usize = 4;

const ENTRY_BYTES: usize = 13;

/// The law of the limits: the constant is the figure of the definitions.
pub fn limits_are_as_stated()
    ensures { MAX_DEMO ≡ greatest_demo }
{}

/// The folder of the demonstration of this number, of 1 to 2000: `c.csv`, `o.csv` and `l.csv`, which `script` loads.
/// Its one error is out of memory.
pub fn folder(alloc: Global, n: u32) -> Result<NeverFailsFolder, AllocError>
    requires some { 1 ≤ n }
    requires few { n ≤ greatest_demo }
    ensures files { IfOk result (λ folder. folder.files ≡ demo_files n) }
    ensures misses { IfOk result (λ folder. folder.misses ≡ 0) }
{
    let mut folder = NeverFailsFolder::new(alloc);

    // The longest file comes first: its text and the copy of it are in memory together, and no other file with them.
    folder.add("l.csv", &order_lines(alloc, n)?)?;
    folder.add("o.csv", &orders(alloc, n)?)?;
    folder.add("c.csv", &customers(alloc, n)?)?;
    Ok(folder)
}

// The customers: each has a number of its own, and one of 10 groups.
fn customers(alloc: Global, n: u32) -> Result<Vec<u8>, AllocError>
    requires some { 1 ≤ n }
    requires few { n ≤ greatest_demo }
    ensures { IfOk result (λ text. text.items ≡ customers_file n) }
{
    file_of(alloc, b"K,G\n", 50 * n, 50 * n, 10)
}

// The orders: each has a number of its own, and a customer.
fn orders(alloc: Global, n: u32) -> Result<Vec<u8>, AllocError>
    requires some { 1 ≤ n }
    requires few { n ≤ greatest_demo }
    ensures { IfOk result (λ text. text.items ≡ orders_file n) }
{
    file_of(alloc, b"K,C\n", 200 * n, 200 * n, 50 * n)
}

// The lines of the orders: each has an order, and one of 50 quantities.
fn order_lines(alloc: Global, n: u32) -> Result<Vec<u8>, AllocError>
    requires some { 1 ≤ n }
    requires few { n ≤ greatest_demo }
    ensures { IfOk result (λ text. text.items ≡ lines_file n) }
{
    file_of(alloc, b"O,Q\n", 400 * n, 200 * n, 50)
}

// A file of so many entries, whose two numbers count from 0 on and begin again at these. Its room is taken once.
fn file_of(
    alloc: Global,
    header: &[u8],
    count: u32,
    first: u32,
    second: u32,
) -> Result<Vec<u8>, AllocError>
    requires few { count ≤ 400 * greatest_demo }
    requires count { count % 10 ≡ 0 }
    requires some_first { 1 ≤ first }
    requires first { first % 10 ≡ 0 }
    requires few_first { first ≤ 400 * greatest_demo }
    requires some_second { 1 ≤ second }
    requires second { second % 10 ≡ 0 }
    requires few_second { second ≤ 400 * greatest_demo }
    ensures { IfOk result (λ text. text.items ≡
        file_of_entries header.now count (λ i. entry_line (i % first) (i % second))) }
{
    let mut text = Vec::with_capacity(alloc, HEADER_BYTES + ENTRY_BYTES * count as usize)?;
    text.extend_from_slice(header)?;
    let mut line = Vec::new(alloc);
    for ten in 0..count / 10 {
        push_ten(&mut text, &mut line, 10 * ten % first, 10 * ten % second)?;
    }
    Ok(text)
}
