//! The public paths, as a crate that depends on these writes them. A module here has the `use`
//! lines for a module there, and a test that uses the named items, so a lost path is noticed. Other
//! tests check the results of the calls.
#![tactic(auto)]

#[cfg(test)]
mod checks;
#[cfg(test)]
mod documents;
#[cfg(test)]
mod event;
#[cfg(test)]
mod expect;
#[cfg(test)]
mod infer;
#[cfg(test)]
mod laws;
#[cfg(test)]
mod mdast;
#[cfg(test)]
mod message;
#[cfg(test)]
mod order;
#[cfg(test)]
mod programs;
#[cfg(test)]
mod questions;
#[cfg(test)]
mod text;
#[cfg(test)]
mod to_mdast;
#[cfg(test)]
mod unist;
