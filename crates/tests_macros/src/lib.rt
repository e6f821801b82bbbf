//! Guards, sites, short names and macros, tested over the public items of `puffin` alone.
#![tactic(auto)]

#[cfg(test)]
mod callers;
#[cfg(test)]
mod equal;
#[cfg(test)]
mod example;
#[cfg(test)]
mod guards;
#[cfg(test)]
mod macros;
#[cfg(test)]
mod names;
#[cfg(test)]
mod program;
#[cfg(test)]
mod sites;
