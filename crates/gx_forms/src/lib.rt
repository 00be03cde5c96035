//! Fields by their names and widths, and the forms that heads give to their children.
#![tactic(auto)]

mod fields;
mod forms;
mod links;

pub use fields::{first_kind, has_name, key_width, key_widths, kind_in};
pub use forms::{copy_fields, make_field, one_field, only_form, two_forms};
pub use links::{array_form, inverted_forms, ring_forms};
