//! A count of steps that exists only in contracts: a bound on the work of a function is a clause
//! about it.
//!
//! The code ticks at each step of its loops. At run time a count takes no memory, and a tick does
//! nothing. Nothing ties the number to time.
#![tactic(auto)]

pub mod count;
