//! What directives answer (GraphQL October 2021, 4.2.6 The __Directive Type).

ghost use Rattle.std.specs.Prelude.{◌≡◌};
ghost use Rattle.graphql_text.specs.Memory.{Gives};
ghost use Rattle.graphql_schema.specs.Directives.{is_place};
ghost use Rattle.graphql_introspection.specs.MemberAnswers as spec;

use crate::leaves::{description, locations, text, truth};
use crate::nodes::{SchemaAnswer, arguments};
use graphql_field_results::Resolved;
use graphql_schema::{DirectiveLocation, DirectiveType, SchemaScalar};
use std::alloc::{AllocError, Global};

/// Whether a directive may stand at this place.
fn may_stand<S>(of: &DirectiveType<S>, place: DirectiveLocation) -> bool
    ensures { result ≡ is_place of.now.locations place }
{
    of.has_location(place)
}

/// Whether a directive may stand at a fragment: at its definition, a spread, or one that is inline.
fn is_on_fragment<S>(of: &DirectiveType<S>) -> bool
    ensures { result ≡ spec.is_on_fragment of.now }
{
    may_stand(of, DirectiveLocation::FragmentDefinition)
        || may_stand(of, DirectiveLocation::InlineFragment)
        || may_stand(of, DirectiveLocation::FragmentSpread)
}

/// What a directive answers. An error is want of memory.
pub fn of_directive<'s, S: SchemaScalar + Drop>(
    alloc: Global,
    of: &'s DirectiveType<S>,
    field: &str,
) -> Result<SchemaAnswer<'s, S>, AllocError>
    ensures { Gives result (spec.of_directive S.of_text S.of_bool of.now field.now) }
{
    match field {
        "name" => text(alloc, of.name.as_str()),
        "description" => description(alloc, &of.description),
        "locations" => locations(alloc, of.locations.as_slice()),
        "args" => arguments(alloc, of.arguments.as_slice()),
        "isRepeatable" => Ok(truth(of.is_repeatable)),
        "onOperation" => Ok(truth(may_stand(of, DirectiveLocation::Query))),
        "onField" => Ok(truth(may_stand(of, DirectiveLocation::Field))),
        "onFragment" => Ok(truth(is_on_fragment(of))),
        _ => Ok(Resolved::Null),
    }
}
