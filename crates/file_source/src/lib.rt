//! The source of CSV files.
#![tactic(auto)]

mod blob;
mod laws;
mod rows;
mod said;
mod source;

pub use blob::{put_row_blob, start_of};
pub use laws::{blobs_read_back, files_replay, files_resume};
pub use rows::FileRows;
pub use said::{discovered, failed, file_text_of, specified, succeeded};
pub use source::{FileFeed, FileSource, FileStart, FileText, FileTextList};
