use crate::validation::examples::{argument, declared_alone, non_null, selections, text};
use graphql_validation::{DirectiveLocation, DirectiveType};
use graphql_values::DefaultScalarValue;
use std::alloc::Global;
use std::process::Abort;

/// The directive `@skip(if: Boolean!) on FIELD | FRAGMENT_SPREAD | INLINE_FRAGMENT`.
fn skip(rt: &impl Abort, alloc: Global) -> DirectiveType<DefaultScalarValue> {
    let arguments = declared_alone(rt, alloc, argument(rt, alloc, "if", non_null("Boolean")));
    DirectiveType::new(
        text(rt, alloc, "skip"),
        selections(rt, alloc),
        arguments,
        false,
    )
}

/// Whether the directive says this in words.
fn is_described(directive: &DirectiveType<DefaultScalarValue>, description: &str) -> bool {
    match &directive.description {
        Some(words) => words.is(description),
        None => false,
    }
}

/// Whether the directive has no description.
fn is_bare(directive: &DirectiveType<DefaultScalarValue>) -> bool {
    directive.description.is_none()
}

/// Whether the directive tells what else it was made of.
fn is_skip(directive: &DirectiveType<DefaultScalarValue>) -> bool {
    directive.name.is("skip")
        && directive.arguments.len() == 1
        && !directive.is_repeatable
        && directive.has_location(DirectiveLocation::Field)
        && directive.has_location(DirectiveLocation::InlineFragment)
        && !directive.has_location(DirectiveLocation::FieldDefinition)
}

#[test]
fn directives_are_made(rt: HostRuntime) {
    let alloc = rt.alloc();
    let bare = is_bare(&skip(&rt, alloc));
    assert!(rt; bare);
    let told = is_skip(&skip(&rt, alloc));
    assert!(rt; told);
    let copy = skip(&rt, alloc).clone().expect(&rt, "memory");
    assert!(rt; is_skip(&copy));
    let words = text(&rt, alloc, "Leaves it out");
    let described = is_described(&skip(&rt, alloc).description(words), "Leaves it out");
    assert!(rt; described);
}

/// The places, and how each is written.
const PLACES: [(DirectiveLocation, &str); 11] = [
    (DirectiveLocation::Query, "query"),
    (DirectiveLocation::Mutation, "mutation"),
    (DirectiveLocation::Subscription, "subscription"),
    (DirectiveLocation::Field, "field"),
    (DirectiveLocation::Scalar, "scalar"),
    (DirectiveLocation::FragmentDefinition, "fragment definition"),
    (DirectiveLocation::FieldDefinition, "field definition"),
    (DirectiveLocation::VariableDefinition, "variable definition"),
    (DirectiveLocation::FragmentSpread, "fragment spread"),
    (DirectiveLocation::InlineFragment, "inline fragment"),
    (DirectiveLocation::EnumValue, "enum value"),
];

#[test]
fn places_are_printed(rt: HostRuntime) {
    let alloc = rt.alloc();
    for (location, words) in &PLACES {
        let written = location.to_string(alloc).expect(&rt, "memory");
        assert_eq!(rt; written.as_str(), *words);
    }
}
