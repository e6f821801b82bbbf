//! The lists of a file, tested over the public calls of `puffin_look` alone.
#![tactic(auto)]

#[cfg(test)]
mod equal;
#[cfg(test)]
mod lists;
#[cfg(test)]
mod pages;
#[cfg(test)]
mod words;
