//! Tests of slots with generations, of memory of banks and of movable blocks.
#![tactic(auto)]

#[cfg(test)]
mod asserting;
#[cfg(test)]
mod blocks;
#[cfg(test)]
mod handles;
#[cfg(test)]
mod moves;
#[cfg(test)]
mod slides;
#[cfg(test)]
mod slots;
