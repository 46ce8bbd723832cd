//! Tests of the libraries that know no load file and no link: stores and sinks, names and numbers, headers, expressions, jump tables, and
//! the dictionaries of libraries.
#![tactic(auto)]

#[cfg(test)]
mod asserting;
#[cfg(test)]
mod dictionaries;
#[cfg(test)]
mod expressions;
#[cfg(test)]
mod headers;
#[cfg(test)]
mod jump_tables;
#[cfg(test)]
mod names_and_numbers;
#[cfg(test)]
mod stores;
