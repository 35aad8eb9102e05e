//! Streams of bytes, and the answers to the lines that stand in them.
//!
//! A [`ByteSource`] and a [`ByteSink`] tell contracts their bytes and how many of their calls
//! failed; [`Piped`] makes one of any reader or writer of std. [`serve_lines`] has a [`LineEngine`]
//! answer each line of a source.
#![tactic(auto)]

mod line_engine;
mod lines;
mod piped;
mod sending;
mod serve_error;
mod serving;
mod streams;

pub use line_engine::LineEngine;
pub use piped::Piped;
pub use serve_error::ServeError;
pub use serving::serve_lines;
pub use streams::{ByteSink, ByteSource, ReadFailed, WriteFailed};
