//! Short names of functions and files.

pub mod file_names;
pub mod function_names;

pub use file_names::short_file_name;
pub use function_names::{clean_function_name, shorten_rust_function_name};
