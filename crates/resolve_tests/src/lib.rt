//! Tests of what linking needs to know of its inputs, and of links.
#![tactic(auto)]

#[cfg(test)]
mod facts;
#[cfg(test)]
mod files;
#[cfg(test)]
mod links;
#[cfg(test)]
mod parts;
#[cfg(test)]
mod resolving;
#[cfg(test)]
mod runtimes;
#[cfg(test)]
mod samples;
#[cfg(test)]
mod usings;
