//! What fields and directives are given.

ghost use Rattle.std.specs.Prelude.{◌≡◌};
ghost use Rattle.std.specs.List.{flat_map};
ghost use Rattle.std.specs.Option.{option_copied, option_map, option_to_list};
ghost use Rattle.graphql_tree.specs.Documents.{arguments_in as arguments_given};
ghost use Rattle.graphql_occurrences.specs.Lent.{field_of_known};
ghost use Rattle.graphql_occurrences.specs.Lookups.{directive_arguments, field_arguments};
ghost use Rattle.graphql_occurrences.specs.PartsOf.{parts_of};
ghost use Rattle.graphql_visitors.specs.Subjects.{seen_in};
ghost use Rattle.graphql_rules.specs.Givens.{given_in, given_of};

use graphql_occurrences::{
    DeclaredArguments, Event, KnownField, Node, Owner, arguments_of_field, declared_by_directive,
};
use graphql_schema::{DirectiveType, SchemaScalar};
use graphql_text::{SourcePosition, Spanning, TextRef};
use graphql_tree::{Directive, Field, arguments_in};
use graphql_values::InputValue;
use graphql_visitors::ValidatorContext;

/// What a field or a directive is given, lent (GraphQL October 2021, 2.6 Arguments).
#[derive_where(Clone, Copy)]
pub(crate) struct Given<'a, 't, S> {
    /// What it is given to.
    pub(crate) owner: Owner<'a>,

    /// Where that begins.
    pub(crate) place: SourcePosition,

    /// The arguments, in the order of the text.
    pub(crate) arguments: &'a [(Spanning<TextRef<'t>>, Spanning<InputValue<S>>)],

    /// The arguments that are declared, where the field or the directive is known.
    pub(crate) declared: Option<DeclaredArguments<'a, S>>,
}

/// What the field or the directive is given that is entered. Nothing of a field of an unknown type,
/// and nothing at any other event.
pub(crate) fn given_at<'a, 't, S: SchemaScalar>(
    context: &ValidatorContext<'a, 't, S>,
    event: &Event<'a, 't, S>,
) -> Option<Given<'a, 't, S>>
    ensures { flat_map given_in (parts_of (seen_in context.now event.now))
        ≡ option_to_list (option_map given_of result) }
{
    match event {
        Event::Enter(node) => given_to(context, node),
        Event::Leave(_) => None,
    }
}

/// What a node is given.
fn given_to<'a, 't, S: SchemaScalar>(
    context: &ValidatorContext<'a, 't, S>,
    node: &Node<'a, 't, S>,
) -> Option<Given<'a, 't, S>>
    ensures { flat_map given_in (parts_of (seen_in context.now (Event.Enter node.now)))
        ≡ option_to_list (option_map given_of result) }
{
    match node {
        Node::Field(known, field) => match context.parent_type() {
            Some(_) => Some(given_to_field(*known, field)),
            None => None,
        },
        Node::Directive(_, known, directive) => Some(given_to_directive(*known, directive)),
        _ => None,
    }
}

/// What a field is given.
fn given_to_field<'a, 't, S>(
    known: Option<KnownField<'a, S>>,
    field: &'a Spanning<Field<'t, S>>,
) -> Given<'a, 't, S>
    ensures { given_of result
        ≡ record {
          place = field.now.span.start;
          given = arguments_given field.now.item.arguments;
          declared = field_arguments (option_map field_of_known known.entry);
        } }
{
    Given {
        owner: Owner::Field(field.item.name.item.as_str()),
        place: field.span.start,
        arguments: arguments_in(&field.item.arguments),
        declared: arguments_of_field(known),
    }
}

/// What a directive is given.
fn given_to_directive<'a, 't, S>(
    known: Option<&'a DirectiveType<S>>,
    directive: &'a Spanning<Directive<'t, S>>,
) -> Given<'a, 't, S>
    ensures { given_of result ≡ record {
      place = directive.now.span.start;
      given = arguments_given
          directive.now.item.arguments;
      declared = directive_arguments (option_copied known.entry);
    } }
{
    Given {
        owner: Owner::Directive(directive.item.name.item.as_str()),
        place: directive.span.start,
        arguments: arguments_in(&directive.item.arguments),
        declared: declared_by_directive(known),
    }
}
