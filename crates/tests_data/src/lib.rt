//! Numbers, texts, devices, streams and their walks, tested over the public calls of `puffin_data` alone.
#![tactic(auto)]

#[cfg(test)]
mod calls;
#[cfg(test)]
mod device;
#[cfg(test)]
mod equal;
#[cfg(test)]
mod error;
#[cfg(test)]
mod file_error;
#[cfg(test)]
mod form;
#[cfg(test)]
mod info;
#[cfg(test)]
mod number;
#[cfg(test)]
mod parts;
#[cfg(test)]
mod range;
#[cfg(test)]
mod reader;
#[cfg(test)]
mod samples;
#[cfg(test)]
mod scope_id;
#[cfg(test)]
mod stream;
#[cfg(test)]
mod visit;
#[cfg(test)]
mod walk;
#[cfg(test)]
mod wire;
