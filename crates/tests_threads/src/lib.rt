//! Thread profilers and details of scopes, tested over the public calls of `puffin_threads` alone.
#![tactic(auto)]

#[cfg(test)]
mod calls;
#[cfg(test)]
mod clock;
#[cfg(test)]
mod equal;
#[cfg(test)]
mod registrations;
#[cfg(test)]
mod rig;
#[cfg(test)]
mod scope_details;
#[cfg(test)]
mod thread_profiler;
