//! The data types of RFC 4251, section 5: texts of bytes, and fields read and written.
#![tactic(auto)]

mod cursor;
mod field_reader;
pub mod laws;
mod list;
mod out_of_memory;
mod put;
mod small;
mod text;

pub use cursor::Cursor;
pub use field_reader::{FieldFault, FieldReader};
pub use list::ListOf;
pub use out_of_memory::OutOfMemory;
pub use put::{patch_u32, put_string, put_u32};
pub use small::Small;
pub use text::{Text, Texts};
