//! JSON texts (RFC 8259) as they are written: strings, numbers, objects and arrays, without white space. What is written
//! reads back as it was.
#![tactic(auto)]

mod item;
mod laws;
mod member;
mod text;

pub use item::{put_comma, put_list};
pub use laws::{
    fields_nest_less, lists_read_back, names_hold, numbers_read_back, objects_read_back,
    texts_read_back,
};
pub use member::{
    put_number_member, put_key, put_member, put_optional_member, put_optional_string,
    put_string_member,
};
pub use text::{put_number, put_string};
