//! The profiler behind a lock and its shares, on threads of their own, tested over public calls alone.
#![tactic(auto)]

#[cfg(test)]
mod equal;
#[cfg(test)]
mod example;
#[cfg(test)]
mod few_workers;
#[cfg(test)]
mod long_texts;
#[cfg(test)]
mod many_workers;
#[cfg(test)]
mod settling;
#[cfg(test)]
mod shared_calls;
#[cfg(test)]
mod shared_profiler;
#[cfg(test)]
mod shares;
#[cfg(test)]
mod sinks;
#[cfg(test)]
mod sizes;
#[cfg(test)]
mod under_one_lock;
#[cfg(test)]
mod workers;
