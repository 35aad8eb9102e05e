use crate::language::told::check;
use graphql_text::{Items, SourcePosition, Spanning, TextRef};
use graphql_tree::{
    Arguments, Definition, Field, Fragment, InlineFragment, Selection, VariableDefinition,
    VariableDefinitions,
};
use graphql_values::{DefaultScalarValue, InputValue, Type, TypeModifier};
use std::alloc::{AllocError, Global};

type Argument = (Spanning<TextRef<'static>>, Spanning<InputValue>);

/// The argument of this name and number, whose value stands at this column.
fn argument(name: &'static str, number: i32, column: usize) -> Argument {
    let position = SourcePosition::new(column, 0, column);
    let value = InputValue::Scalar(DefaultScalarValue::Int(number));
    (
        Spanning::unlocated(TextRef::new(name)),
        Spanning::zero_width(position, value),
    )
}

/// `(a: 1, b: 2, a: 3)`, each value at its column.
fn sample(alloc: Global) -> Result<Arguments<'static, DefaultScalarValue>, AllocError> {
    let items = vec![in alloc;
        argument("a", 1, 4),
        argument("b", 2, 10),
        argument("a", 3, 16),
    ]?;
    Ok(Arguments {
        items: Items::from_vec(items),
    })
}

/// The number and the column of the argument of this name.
fn found(arguments: &Arguments<'_, DefaultScalarValue>, name: &str) -> Option<(i32, usize)> {
    let value = arguments.get(name)?;
    match &value.item {
        InputValue::Scalar(DefaultScalarValue::Int(number)) => {
            Some((*number, value.span.start.column()))
        }
        _ => None,
    }
}

/// The names of the arguments, one behind another, as they are lent.
fn names_lent(
    alloc: Global,
    arguments: &Arguments<'static, DefaultScalarValue>,
) -> Result<String, AllocError> {
    let mut text = String::new(alloc);
    for argument in arguments {
        text.push_str(argument.0.item.as_str())?;
    }
    Ok(text)
}

/// The names of the arguments, one behind another, as they are handed out.
fn names_given(
    alloc: Global,
    arguments: Arguments<'static, DefaultScalarValue>,
) -> Result<String, AllocError> {
    let mut text = String::new(alloc);
    for argument in arguments {
        text.push_str(argument.0.item.as_str())?;
    }
    Ok(text)
}

/// The names twice, how many arguments there are, and those of four names.
fn arguments_text(alloc: Global) -> Result<String, AllocError> {
    let arguments = sample(alloc)?;
    let lent = names_lent(alloc, &arguments)?;
    let counted = arguments.len() == 3 && arguments.iter().count() == 3 && !arguments.is_empty();
    let told = [
        found(&arguments, "b"),
        found(&arguments, "a"),
        found(&arguments, "c"),
        found(&arguments, ""),
    ];
    let right = told == [Some((2, 10)), Some((1, 4)), None, None];
    let given = names_given(alloc, arguments)?;
    format!(in alloc; "{lent} {given} {counted} {right}")
}

#[test]
fn arguments_by_name_and_in_order(rt: HostRuntime) -> Result<(), AllocError> {
    let told = arguments_text(rt.alloc());
    check(&rt, told, "aba aba true true")
}

/// A variable of this name, of the type `Int`.
fn variable(
    alloc: Global,
    name: &'static str,
) -> (
    Spanning<TextRef<'static>>,
    VariableDefinition<'static, DefaultScalarValue>,
) {
    let modifiers: Items<TypeModifier> = Items::new(alloc);
    let definition = VariableDefinition {
        var_type: Spanning::unlocated(Type {
            name: TextRef::new("Int"),
            modifiers,
        }),
        default_value: None,
        directives: None,
    };
    (Spanning::unlocated(TextRef::new(name)), definition)
}

/// Whether the last of two variables is that.
fn is_last(alloc: Global) -> Result<bool, AllocError> {
    let items = vec![in alloc; variable(alloc, "first"), variable(alloc, "last")]?;
    let variables = VariableDefinitions {
        items: Items::from_vec(items),
    };
    Ok(match variables.iter().last() {
        Some(variable) => variable.0.item.is("last"),
        None => false,
    })
}

#[test]
fn variables_in_order(rt: HostRuntime) -> Result<(), AllocError> {
    let is_last = is_last(rt.alloc())?;
    assert!(rt; is_last);
    Ok(())
}

type Set = Items<Selection<'static, DefaultScalarValue>>;

/// The field `a`, with this selection set or none.
fn field(selection_set: Option<Set>) -> Selection<'static, DefaultScalarValue> {
    Selection::Field(Spanning::unlocated(Field {
        alias: None,
        name: Spanning::unlocated(TextRef::new("a")),
        arguments: None,
        directives: None,
        selection_set,
    }))
}

/// The inline fragment of this set.
fn inline_fragment(selection_set: Set) -> Selection<'static, DefaultScalarValue> {
    Selection::InlineFragment(Spanning::unlocated(InlineFragment {
        type_condition: None,
        directives: None,
        selection_set,
    }))
}

/// A set whose first selection is an inline fragment of a set whose last selection is a field of
/// such a set, and so on.
fn nested(alloc: Global) -> Result<Set, AllocError> {
    let mut set: Set = Items::new(alloc);
    for _ in 0..100_000 {
        set = Items::from_vec(vec![in alloc; field(None), field(Some(set))]?);
        set = Items::from_vec(vec![in alloc; inline_fragment(set), field(None)]?);
    }
    Ok(set)
}

#[test]
fn deep_document_goes(rt: HostRuntime) -> Result<(), AllocError> {
    let alloc = rt.alloc();
    let fragment = Fragment {
        name: Spanning::unlocated(TextRef::new("f")),
        type_condition: Spanning::unlocated(TextRef::new("T")),
        directives: None,
        selection_set: nested(alloc)?,
    };
    let definitions = vec![in alloc; Definition::Fragment(Spanning::unlocated(fragment))]?;
    let _document = Items::from_vec(definitions);
    Ok(())
}
