// The bridge: lists of requests as words, served on the lent tables, without a translation cache and with one. Rust and C call it by bridge_c. Defined in
// crates/request_words/specs/Run.antt and crates/cache_words/specs/CachedRun.antt.
#![tactic(auto)]

pub mod cached_run;
pub mod export;
pub mod run;
