//! The steps that walk a list of events, the proof that they agree with the definitions of
//! `markdown_grammar`, and laws of every tree and of every refusal.
#![tactic(auto)]

pub mod laws;
