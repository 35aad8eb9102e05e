//! The text of a plain operation, as a definition: its tokens in the spelling of the text that it
//! was written in, parted by single spaces; and the law that this text is a document, the
//! operation's own (GraphQL October 2021, 2 Language). It stands on the laws that values and types
//! are read back from the texts that they are shown as.
#![tactic(auto)]

pub mod laws;
pub mod read_back_laws;
mod round_trip;
mod writable;

pub use round_trip::read_back;
pub use writable::is_writable;
