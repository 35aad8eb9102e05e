//! Rules over all operations and fragments of a document.

use crate::{FragmentIndex, OperationScope};
use graphql_rule_errors::RuleError;
use graphql_schema::{SchemaScalar, SchemaType};
use graphql_text::Items;
use std::alloc::{AllocError, Global};

/// A rule over all operations and fragments of a document.
pub trait DocumentRule<S: SchemaScalar> {
    ghost use Rattle.std.specs.Prelude.{OnOk, map};
    ghost use Rattle.graphql_rule_errors.specs.Places.{Reports};
    ghost use Rattle.graphql_rules_document.specs.Once.{ScopeRule};
    ghost use Rattle.graphql_rules_document.specs.Lent.{fragment_of, operation_of};

    /// The places of the errors.
    ghost says: { ScopeRule S S.Check };

    /// Adds an error at each of these places. An error of the call is want of memory.
    fn add_errors<'a, 't>(
        &self,
        alloc: Global,
        schema: &SchemaType<S>,
        operations: &[OperationScope<'a, 't, S>],
        index: &FragmentIndex<'_, 'a>,
        errors: &mut Items<RuleError>,
    ) -> Result<(), AllocError>
        ensures { let held = map operation_of operations.now in
            let fragments = map fragment_of index.now.fragments.now in
            OnOk result (Reports (says schema.now.types held fragments) errors.old errors.new) };
}
