//! The arguments that a schema declares.

ghost use Rattle.std.specs.Prelude.{◌≡◌, []};
ghost use Rattle.std.specs.Option.{option_and_then, option_copied, option_map, option_map_or};
ghost use Rattle.graphql_schema.specs.Types.{arguments_of};
ghost use Rattle.graphql_occurrences.specs.DeclaredLent.{arguments_lent};
ghost use Rattle.graphql_occurrences.specs.DeclaredLookups as spec;

use graphql_names::NamedItems;
use graphql_schema::{Argument, DirectiveType, Field};

/// The arguments that a field or a directive declares, lent (GraphQL October 2021, 3.6.1 Field
/// Arguments, 3.13 Directives).
#[derive_where(Clone, Copy)]
pub struct DeclaredArguments<'a, S> {
    /// The arguments; `None` is the same as no argument.
    pub(crate) held: Option<&'a NamedItems<Argument<S>>>,
}

impl<'a, S> DeclaredArguments<'a, S> {
    /// The arguments of a field, where there is one.
    pub(crate) fn of(field: Option<&'a Field<S>>) -> DeclaredArguments<'a, S>
        ensures { arguments_lent result
            ≡ option_map_or arguments_of (option_copied field.entry) [] }
    {
        DeclaredArguments {
            held: held_by(field),
        }
    }

    /// The arguments, as they were declared.
    pub fn as_slice(self) -> &'a [Argument<S>]
        ensures { result.now ≡ arguments_lent self.entry }
    {
        match self.held {
            Some(arguments) => arguments.as_slice(),
            None => &[],
        }
    }

    /// The first argument of this name, or `None` where there is none. Finds it by binary search.
    pub fn get(self, name: &str) -> Option<&'a Argument<S>>
        ensures { option_copied result ≡ spec.argument_named (arguments_lent self.entry) name.now }
    {
        match self.held {
            Some(arguments) => arguments.get(name),
            None => None,
        }
    }
}

/// The arguments that a field holds, where there is a field and it holds any.
fn held_by<'a, S>(field: Option<&'a Field<S>>) -> Option<&'a NamedItems<Argument<S>>>
    ensures { option_copied result
        ≡ option_and_then (λ f. f.arguments) (option_copied field.entry) }
{
    match field {
        Some(field) => field.arguments.as_ref(),
        None => None,
    }
}

/// The arguments that are declared for a directive, if the directive is known.
pub fn declared_by_directive<'a, S>(
    directive: Option<&'a DirectiveType<S>>,
) -> Option<DeclaredArguments<'a, S>>
    ensures { option_map arguments_lent result
        ≡ spec.directive_arguments (option_copied directive.entry) }
{
    match directive {
        Some(directive) => Some(DeclaredArguments {
            held: Some(&directive.arguments),
        }),
        None => None,
    }
}
