//! What fields are asked of.

/// What fields are asked of.
#[derive(Clone, Copy)]
pub enum TableNode {
    /// The record from which queries start.
    Root,

    /// The record at this place among the records, from zero.
    At(usize),
}
