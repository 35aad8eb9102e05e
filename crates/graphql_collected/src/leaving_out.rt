//! What directives leave out.

ghost use Rattle.std.specs.Prelude.{◌≡◌};
ghost use Rattle.graphql_collected.specs.Requests.{drops_in};
ghost use Rattle.graphql_written_out.specs.Written.{listed};

use crate::request::Request;
use graphql_schema::SchemaScalar;
use graphql_text::{Items, Spanning};
use graphql_tree::Directive;
use graphql_written_out::left_out;

/// Whether the directives leave out what they stand at (GraphQL October 2021, 3.13.1 @skip, 3.13.2
/// @include).
pub fn drops<S: SchemaScalar>(
    request: &Request<'_, '_, S>,
    directives: &Option<Items<Spanning<Directive<'_, S>>>>,
) -> bool
    ensures { result ≡ drops_in S.answer request.now (listed directives.now) }
{
    left_out(directives, &request.variables)
}
