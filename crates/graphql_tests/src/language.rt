//! Tests of the language layer: cursors, trees, parsers, documents, and what is read back.

mod cursors;
mod documents;
mod parsers;
mod places;
mod read_back;
mod records;
mod told;
mod trees;
