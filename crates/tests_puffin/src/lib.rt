//! The profiler, its sinks, and calls that take memory, tested over the public calls of `puffin` alone.
#![tactic(auto)]

#[cfg(test)]
mod calls;
#[cfg(test)]
mod details;
#[cfg(test)]
mod ends;
#[cfg(test)]
mod equal;
#[cfg(test)]
mod files;
#[cfg(test)]
mod global_profiler;
#[cfg(test)]
mod leader;
#[cfg(test)]
mod left_open;
#[cfg(test)]
mod light;
#[cfg(test)]
mod limits;
#[cfg(test)]
mod places;
#[cfg(test)]
mod pool;
#[cfg(test)]
mod runs;
#[cfg(test)]
mod sinks;
#[cfg(test)]
mod surface;
