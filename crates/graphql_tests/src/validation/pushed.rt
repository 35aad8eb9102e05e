//! A context while types are pushed to it.

use crate::validation::examples::{Verdict, says, schema};
use graphql_validation::{InputPlace, TypeLiteral, ValidatorContext};
use graphql_values::DefaultScalarValue;

type Context<'a, 't> = ValidatorContext<'a, 't, DefaultScalarValue, Verdict>;

const QUERY: TypeLiteral<'static> = TypeLiteral {
    name: "Query",
    modifiers: &[],
};

const PLACE: InputPlace<'static> = InputPlace {
    asked: QUERY,
    has_default: true,
    is_only_field: false,
};

/// Whether `Query` is what is selected, what it is selected of, and what a value is asked for as.
fn are_query(context: &mut Context<'_, '_>) -> (bool, bool, bool) {
    let around = context.around();
    (
        matches!(around.current, Some(literal) if literal.name == "Query"),
        matches!(around.parent, Some(meta) if says(meta.name(), "Query")),
        matches!(around.input, Some(place) if place.asked.name == "Query" && place.has_default),
    )
}

#[test]
fn a_context_stands_where_types_are_pushed(rt: HostRuntime) {
    let alloc = rt.alloc();
    let schema = schema(&rt, alloc, &[], None);
    let mut context: Context<'_, '_> = ValidatorContext::new(alloc, &schema, &[]).expect(
        &rt, "memory",
    );
    let typed = context.with_pushed_type(Some(QUERY), are_query);
    let below = context.with_pushed_type(Some(QUERY), |inside: &mut Context<'_, '_>| {
        inside.with_pushed_parent_type(are_query)
    });
    let asked = context.with_pushed_input_type(Some(PLACE), are_query);
    assert!(rt; typed == (true, false, false) && below == (true, true, false));
    assert!(rt; asked == (false, false, true));
    assert!(rt; are_query(&mut context) == (false, false, false));
}
