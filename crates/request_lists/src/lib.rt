// Requests read from lists of words, and answers written to them. Defined in crates/request_words/specs/Layout.antt.
#![tactic(auto)]

pub mod layout;
pub mod word_lists;
