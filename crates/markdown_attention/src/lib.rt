//! Constructs that depend on Unicode's classes: runs of delimiters, for emphasis, strong emphasis
//! (CommonMark) and strikethrough (GFM), and the addresses of extended autolinks (GFM).
//!
//! `specs/Flanking.antt` and `specs/Emphasis.antt` are the page of runs: which characters count as
//! white space and punctuation, which runs are flanking, which can open and close emphasis, and
//! which pairs runs make. `specs/ExtendedAddresses.antt` is the page of extended autolinks and
//! their addresses.
#![tactic(auto)]

pub mod character_kind;
pub mod delimiter;
pub mod emphasis;
pub mod extended_autolink_address;
mod extended_autolink_segments;
pub mod flanks;
pub mod laws;
mod openers;
pub mod run;
