//! Selection sets behind fields.

ghost use Rattle.std.specs.Prelude.{◌≡◌};
ghost use Rattle.graphql_names.specs.Names.{passes};
ghost use Rattle.graphql_occurrences.specs.Lookups.{known};
ghost use Rattle.graphql_rules.specs.ScalarLeafs as spec;
ghost use Rattle.graphql_schema.specs.Declarations.{declarations_of};

use crate::kinds::{is_composite, is_leaf};
use graphql_names::Type;
use graphql_occurrences::{Event, Node, TypeLiteral};
use graphql_schema::{MetaType, SchemaScalar, SchemaType};
use graphql_text::{Text, TextRef};
use graphql_visitors::{Local, LocalRule, ValidatorContext};
use std::alloc::{AllocError, Global};

/// Behind a field of a scalar or an enum stands no selection set, and behind one of an object, an
/// interface or a union stands one (GraphQL October 2021, 5.3.3 Leaf Field Selections). Of a field
/// or a type that is unknown nothing is said.
///
/// An error names the start of the field, which is that of its alias where it has one.
#[derive(Drop)]
pub struct ScalarLeafs;

/// The rule, as a visitor.
pub fn factory() -> Local<ScalarLeafs> {
    Local(ScalarLeafs)
}

/// What is said of a field of this type, which has a selection set or has none. An error is want of
/// memory.
fn message(
    alloc: Global,
    field: &str,
    of: TypeLiteral<'_>,
    has_set: bool,
) -> Result<Text, AllocError> {
    let of = Type {
        name: TextRef::new(of.name),
        modifiers: of.modifiers,
    };
    let must = if has_set { "must not" } else { "must" };
    let text = format!(in alloc; "Field \"{field}\" of type \"{of}\" {must} have a selection")?;
    Ok(Text::from_string(text))
}

/// Whether a field of the type has no selection set where it needs one, or has one where it may
/// not.
fn mistakes_set<S, C>(has_set: bool, meta: &MetaType<S, C>) -> bool
    ensures { result ≡ spec.mistakes_set has_set meta.now }
{
    if has_set {
        is_leaf(meta)
    } else {
        is_composite(meta)
    }
}

/// The same of the type of this name, if the type is known.
fn is_wrong<S, C>(schema: &SchemaType<S, C>, name: &str, has_set: bool) -> bool
    ensures { result
        ≡ passes (spec.mistakes_set has_set) (known (declarations_of schema.now) name.now) }
{
    match schema.concrete_type_by_name(name) {
        Some(meta) => mistakes_set(has_set, meta),
        None => false,
    }
}

impl<S: SchemaScalar> LocalRule<S> for ScalarLeafs {
    ghost use Rattle.graphql_rules.specs.ScalarLeafs.{scalar_leafs_faults};

    ghost says = { scalar_leafs_faults };

    fn tell<'a, 't>(&self, context: &mut ValidatorContext<'a, 't, S>, event: &Event<'a, 't, S>) {
        if let Event::Enter(Node::Field(Some(known), field)) = event {
            let of = known.type_literal();
            let has_set = field.item.selection_set.is_some();
            if context.parent_type().is_some() && is_wrong(context.schema(), of.name, has_set) {
                let name = field.item.name.item.as_str();
                let text = message(context.alloc(), name, of, has_set);
                context.report_error(text, &[field.span.start]);
            }
        }
    }
}
