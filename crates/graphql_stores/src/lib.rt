//! What stands on plain texts of requests: a service that answers those alone which a store allows,
//! and a cache of answers, which keeps texts under keys, in so many bytes at most.
#![tactic(auto)]

mod allowed_fault;
mod allowed_queries;
mod allowing_lines;
mod allowing_service;
mod answer_cache;
mod asked;
mod cached_lines;
mod kept_answers;
mod kept_texts;
pub mod laws;
mod plain_lines;
mod reading;

pub use allowed_fault::AllowedFault;
pub use allowed_queries::AllowedQueries;
pub use allowing_service::AllowingService;
pub use answer_cache::AnswerCache;
pub use kept_texts::KeptTexts;
