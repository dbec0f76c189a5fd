// The printer's texts: what is read and what is written is defined in specs/; the keys of their lines are code.
#![tactic(auto)]

pub mod keys;
