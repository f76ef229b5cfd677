// The kinds of value: numbers, requests, answers, effects, records of the tables. Defined in crates/kinds/specs/Answer.antt, Outcome.antt and Number.antt.
// Nothing here depends on the profile.
#![tactic(auto)]

pub mod answer;
pub mod lookup;
pub mod number;
pub mod outcome;
pub mod record;
pub mod request;
