//! Merging, tested over the public calls of `puffin_merge`, and of views, whose frames it merges.
#![tactic(auto)]

#[cfg(test)]
mod equal;
#[cfg(test)]
mod merge;
#[cfg(test)]
mod merger;
#[cfg(test)]
mod refused_merges;
