//! Sessions, scripts, recordings, counts and reports, tested over the public calls of `puffin_replay` alone.
#![tactic(auto)]

#[cfg(test)]
mod count;
#[cfg(test)]
mod details;
#[cfg(test)]
mod equal;
#[cfg(test)]
mod one_session;
#[cfg(test)]
mod record;
#[cfg(test)]
mod recording;
#[cfg(test)]
mod report;
#[cfg(test)]
mod run;
#[cfg(test)]
mod script;
#[cfg(test)]
mod session;
#[cfg(test)]
mod steps;
#[cfg(test)]
mod summary;
