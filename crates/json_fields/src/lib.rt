//! The members of a JSON object by name.
#![tactic(auto)]

mod fields;
mod kept;
mod lookup;
mod parts;
mod view;

pub use fields::{cut, field, has_text, optional, optional_text, text_field};
pub use kept::without;
pub use lookup::{
    count_in, field_in, member_of, object_in, optional_in, optional_text_in, place_of, text_in,
};
pub use parts::{
    array_field, count_field, cut_list, cut_with_list, elements_at, is_number, object_field,
    optional_count, optional_number,
};
pub use view::{TextView, string_view};
