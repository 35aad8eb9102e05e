//! How documents are read: a function for each production of the grammar, which reads it from the
//! tokens ahead (GraphQL October 2021, 2 Language).

mod document;
mod selection;

pub(crate) use document::document;
