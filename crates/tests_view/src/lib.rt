//! Views and files of frames, tested over the public calls of `puffin_view` alone.
#![tactic(auto)]

#[cfg(test)]
mod broken;
#[cfg(test)]
mod calls;
#[cfg(test)]
mod devices;
#[cfg(test)]
mod files;
#[cfg(test)]
mod frame_file;
#[cfg(test)]
mod views;
