//! Names, numbers in files, lines of text and places in files: what every crate of the tool is built on.
#![tactic(auto)]

mod alignment;
mod field;
mod line;
mod name;
mod numbers;
mod slices;
mod split;
mod spot;
mod trailing;

pub use alignment::padding;
pub use field::{
    bytes_field, count_field, name_field, shift_field, u8_field, u16_field, u32_field,
};
pub use line::{Line, LineFault};
pub use name::{Name, NameFault};
pub use numbers::{number, number_at};
pub use slices::{first_items, items_after};
pub use split::split_line;
pub use spot::Spot;
pub use trailing::without_trailing;
