//! The account of work. Whoever does a unit of work pays its charge here first, so what is spent is the exact sum of
//! what was paid: at least what was done. An execution that runs out has spent exactly what it was granted.
//! To the layers above it promises that `spent` never falls, that only `grant` moves the limit, and that a payment is
//! refused exactly where it doesn't fit. It never looks at what the work is for, and never takes memory.
#![tactic(auto)]

pub mod charge;
mod ledger;

pub use ledger::{Exhausted, Ledger};
