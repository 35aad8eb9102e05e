//! Look-ahead: what a request selects below a field, known before the field is answered (GraphQL
//! October 2021, 6.4 Executing Fields).
#![tactic(auto)]

mod applies;
mod argument;
mod children;
mod equality;
mod gathering;
pub mod laws;
mod list;
pub mod look_ahead_list;
pub mod look_ahead_object;
mod object;
mod open;
mod searching;
mod selected;
mod selection;
mod value;

pub use applies::Applies;
pub use argument::{LookAheadArgument, LookAheadArguments};
pub use children::{LookAheadChildren, Names};
pub use list::LookAheadList;
pub use object::LookAheadObject;
pub use selected::Selected;
pub use selection::LookAheadSelection;
pub use value::LookAheadValue;
