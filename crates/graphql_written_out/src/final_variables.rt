//! The values that an operation's variables have in the end.

ghost use Rattle.std.specs.Prelude.{◌≡◌, ℕ, List};
ghost use Rattle.graphql_rule_errors.specs.Found.{item_named};
ghost use Rattle.graphql_written_out.specs.FinalValues.{definition_named};

mod lookups;

use crate::definitions::Variable;
use graphql_values::Variables;
use std::collections::HashMap;

/// The values that variables have while an operation is executed (GraphQL October 2021, 6.1.2
/// Coercing Variable Values): what the request gives, and the defaults of the operation's
/// definitions for what is absent. A `null` that is given stays `null`. Values of names that the
/// operation does not define are kept. Of several definitions of one name, which no valid document
/// has, the first counts. Values are lent, and none is copied.
#[derive(Drop)]
pub struct FinalVariables<'a, S> {
    /// The values that the request gives.
    pub(crate) variables: &'a Variables<S>,

    /// The variables that the operation defines.
    pub(crate) definitions: &'a [Variable<'a, S>],

    /// The first definition of each name.
    pub(crate) first: HashMap<&'a str, &'a Variable<'a, S>>,

    ghost firsts: { (name : List ℕ)
        → item_named first name ≡ definition_named definitions.now name },
}
