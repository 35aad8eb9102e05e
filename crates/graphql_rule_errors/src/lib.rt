//! What rules have against a document.
#![tactic(auto)]

pub mod laws;
mod mentions;
mod parts;
mod repeats;
mod rule_error;

pub use mentions::{LentMention, Mentions};
pub use parts::joined;
pub use repeats::{first_mention, report, report_repeats};
pub use rule_error::RuleError;
