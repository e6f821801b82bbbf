//! A history that threads add to, which exists in proofs alone: when a program runs, its values have no bytes and its functions do
//! nothing.
//!
//! A [`Log`] is the whole history, and an [`Author`] is the right to add entries under one number. Put the log into a value behind a
//! lock and an author into each thread: then a ghost field of that value can state what the entries say of it. A thread knows,
//! from one holding of the lock to the next, that its own entries are in the history, once and in their order, and that the
//! history has no others under its number.
#![tactic(auto)]

mod tokens;

pub use tokens::{Adds, Author, History, Log, NewLog};
