//! Streams of scopes: their bytes, the strict walk over them, and the counts that it gives.

mod buffered;
mod device;
mod form;
mod info;
mod parts;
mod range;
mod reader;
mod record;
mod scope;
mod scope_id;
mod spelling;
mod stream;
mod transfer;
mod visit;
mod walk;

pub use buffered::Buffered;
pub use device::{Counted, Drain, Source};
pub use form::Form;
pub use info::{StreamInfo, StreamInfoRef};
pub use parts::{read_byte, read_counted_part, read_length, read_part, read_up_to};
pub use range::is_valid_range;
pub use reader::{Reader, text_of};
pub use record::{Scope, ScopeRecord};
pub use scope::{BEGIN_LIMIT, END_SIZE, RawScope};
pub use scope_id::ScopeId;
pub use stream::Stream;
pub use transfer::{read_to_end, write_all};
pub use visit::{Visitor, walk_with};
pub use walk::{Walk, walk_forest};
