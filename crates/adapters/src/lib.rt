//! Tests of what the adapters of `outside_io` reach of the system: that a sink flushes, and what files and streams answer.
//! Nothing stands on it, and it has no call of its own.
#![tactic(auto)]

#[cfg(test)]
mod failing_files;
#[cfg(test)]
mod files;
#[cfg(test)]
mod streams;
