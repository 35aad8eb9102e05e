//! Runs over the sample, which is made by calls that hand their errors on.

ghost use Rattle.std.specs.Prelude.{◌≡◌, Ok};
ghost use Rattle.graphql_text.specs.Memory.{Told};
ghost use Rattle.graphql_scalars.specs.declared.check_error.CheckError.TheVariants.{Memory};
ghost use Rattle.graphql_schema.specs.ScalarChecks.{IsBoolean, IsId, IsInt, IsString};

use crate::alone::{executed, told_plain};
use crate::ending::Ending;
use crate::served::{Run, made, served};
use crate::unmade::Unmade;
use graphql_sample::schema_s;
use graphql_schema::{IntrospectionChecks, RootNode, TypeCheck};
use graphql_service::StandardChecks;
use graphql_service::scalar_checks::{boolean_check, id_check, int_check, string_check};
use graphql_values::{DefaultScalarValue, InputValue};
use std::alloc::Global;

type Value = InputValue<DefaultScalarValue>;

/// What is run over the sample.
#[derive(Clone, Copy)]
pub enum Asked<'a> {
    /// A service is made, and nothing is answered.
    Service,

    /// Lines are answered, or told their plain texts.
    Lines(&'a Run),

    /// A mutation is executed alone, after so many requests for memory.
    Mutation(u32),

    /// A query is told its plain text alone, after so many requests for memory.
    PlainText(u32),
}

/// How a run over the sample with these checks ends.
fn with_checks(alloc: Global, checks: StandardChecks, asked: Asked<'_>) -> Result<Ending, Unmade> {
    let schema = schema_s(alloc, checks)?;
    let root_node = RootNode::new(schema);
    match asked {
        Asked::Service => made(alloc, root_node),
        Asked::Lines(run) => served(alloc, root_node, run),
        Asked::Mutation(spent) => executed(alloc, &root_node, spent),
        Asked::PlainText(spent) => told_plain(alloc, &root_node, spent),
    }
}

/// How a run over the sample ends, with the checks of the standard's scalars, and those of the
/// enums of introspection, each of which accepts what the enum declares.
pub fn ended(alloc: Global, asked: Asked<'_>) -> Result<Ending, Unmade> {
    let int = TypeCheck::new(Box::new(
        alloc,
        move |value: &Value|
            ensures { Told (λ e. e ≡ Memory) result (IsInt value.now) }
        { int_check(alloc, value) },
    )?);
    let string = TypeCheck::new(Box::new(
        alloc,
        move |value: &Value|
            ensures { Told (λ e. e ≡ Memory) result (IsString value.now) }
        { string_check(alloc, value) },
    )?);
    let boolean = TypeCheck::new(Box::new(
        alloc,
        move |value: &Value|
            ensures { Told (λ e. e ≡ Memory) result (IsBoolean value.now) }
        { boolean_check(alloc, value) },
    )?);
    let id = TypeCheck::new(Box::new(
        alloc,
        move |value: &Value|
            ensures { Told (λ e. e ≡ Memory) result (IsId value.now) }
        { id_check(alloc, value) },
    )?);
    let type_kind = TypeCheck::new(Box::new(
        alloc,
        |_value: &Value|
            ensures { result ≡ Ok tt }
        { Ok(()) },
    )?);
    let directive_location = TypeCheck::new(Box::new(
        alloc,
        |_value: &Value|
            ensures { result ≡ Ok tt }
        { Ok(()) },
    )?);
    let introspection = IntrospectionChecks {
        type_kind,
        directive_location,
    };
    let checks = StandardChecks {
        int,
        string,
        boolean,
        id,
        introspection,
    };
    with_checks(alloc, checks, asked)
}
