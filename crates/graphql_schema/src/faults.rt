//! What is wrong with the types of a schema.

ghost use Rattle.std.specs.Prelude.{IfOk, MatchResult};
ghost use Rattle.graphql_names.specs.Names.{Finds};
ghost use Rattle.graphql_schema.specs.Faults.{Roots, IsFirstFault, IsFaultless, has_fault};

mod demand;
mod duplicates;
mod kind;
mod named_types;
mod one_of;
mod parts;
mod references;

use crate::MetaType;
use crate::error::SchemaError;
use demand::Demand;
use duplicates::repeated_part;
use graphql_names::NameMap;
use graphql_text::Text;
pub use kind::FaultKind;
use kind::{KINDS, error_of};
use named_types::{bad_root, missing_builtin};
use one_of::bad_one_of;
use references::{bad_member, unmet_reference};
use std::alloc::{AllocError, Global};

/// The first fault of the types, in the order of [`SchemaError`], each with a name at which it
/// stands (GraphQL October 2021, 3.3 Schema, 3.4.2 Input and Output Types, 3.6 to 3.10).
/// `SchemaError::Memory` is want of memory.
pub fn find_fault<S, C>(
    alloc: Global,
    types: &NameMap<MetaType<S, C>>,
    query: &Text,
    mutation: &Option<Text>,
    subscription: &Option<Text>,
) -> Result<(), SchemaError>
    ensures { let roots : Roots =
        record { query = query.now; mutation = mutation.now; subscription = subscription.now } in
        MatchResult result (λ _. IsFaultless types.now roots) (IsFirstFault types.now roots) }
{
    'kinds: for kind in KINDS {
        if let Some(name) = faulty_name(alloc, kind, types, query, mutation, subscription)? {
            let name = Text::from_str(alloc, name)?;
            return Err(error_of(kind, name));
        }
    }
    Ok(())
}

/// A name at which a fault of this kind stands. An error is want of memory.
fn faulty_name<'a, S, C>(
    alloc: Global,
    kind: FaultKind,
    types: &'a NameMap<MetaType<S, C>>,
    query: &'a Text,
    mutation: &'a Option<Text>,
    subscription: &'a Option<Text>,
) -> Result<Option<&'a str>, AllocError>
    ensures { let roots : Roots =
        record { query = query.now; mutation = mutation.now; subscription = subscription.now } in
        IfOk result (Finds (has_fault types.now roots kind)) }
{
    let all = types.as_slice();
    match kind {
        FaultKind::DuplicateName => repeated_part(alloc, all),
        FaultKind::MissingBuiltin => Ok(missing_builtin(types)),
        FaultKind::UnknownType => Ok(unmet_reference(Demand::Known, types)),
        FaultKind::NotOutputType => Ok(unmet_reference(Demand::Output, types)),
        FaultKind::NotInputType => Ok(unmet_reference(Demand::Input, types)),
        FaultKind::BadRoot => Ok(bad_root(types, query, mutation, subscription)),
        FaultKind::BadMember => Ok(bad_member(types)),
        FaultKind::BadOneOf => Ok(bad_one_of(all)),
    }
}
