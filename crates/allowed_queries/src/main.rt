//! Answers GraphQL request lines from standard input, over the schema and the records of two files,
//! where a third file allows their plain texts.
#![tactic(auto)]

mod arguments;
mod failure;
mod files;

ghost use Rattle.std.specs.Prelude.{◌≡◌, Ok};
ghost use Rattle.graphql_text.specs.Memory.{Told};
ghost use Rattle.graphql_scalars.specs.declared.check_error.CheckError.TheVariants.{Memory};
ghost use Rattle.graphql_schema.specs.ScalarChecks.{IsBoolean, IsId, IsInt, IsString};

use arguments::{Arguments, arguments_of};
use failure::{Failure, failure_of, unless_memory};
use files::{bytes_at, run_allowed};
use graphql_file_service::scalar_checks::{boolean_check, id_check, int_check, string_check};
use graphql_file_service::{IntrospectionChecks, Piped, StandardChecks, TypeCheck};
use graphql_stores::AllowedQueries;
use graphql_values::{DefaultScalarValue, InputValue};
use std::process::ExitCode;
use std::{env, io};

type Value = InputValue<DefaultScalarValue>;

/// What the program's arguments name.
fn read_arguments(rt: &HostRuntime) -> Result<Arguments, Failure> {
    let mut words = match env::args(rt) {
        Ok(words) => words,
        Err(error) => return Err(unless_memory(error, Failure::Usage)),
    };
    let _program = words.next();
    arguments_of(words.next(), words.next(), words.next(), words.next())
}

/// Answers the lines of standard input over the files that the arguments name, with checks of the
/// standard scalars.
fn run(rt: &HostRuntime) -> Result<(), Failure> {
    let arguments = read_arguments(rt)?;
    let alloc = rt.alloc();
    let schema = bytes_at(rt, arguments.schema)?;
    let records = bytes_at(rt, arguments.records)?;
    let file = bytes_at(rt, arguments.allowed)?;
    let allowed = AllowedQueries::read(alloc, file.as_slice())?;
    let Ok(int) = Box::new(
        alloc,
        move |value: &Value|
            ensures { Told (λ e. e ≡ Memory) result (IsInt value.now) }
        { int_check(alloc, value) },
    ) else {
        return Err(Failure::Memory);
    };
    let Ok(string) = Box::new(
        alloc,
        move |value: &Value|
            ensures { Told (λ e. e ≡ Memory) result (IsString value.now) }
        { string_check(alloc, value) },
    ) else {
        return Err(Failure::Memory);
    };
    let Ok(boolean) = Box::new(
        alloc,
        move |value: &Value|
            ensures { Told (λ e. e ≡ Memory) result (IsBoolean value.now) }
        { boolean_check(alloc, value) },
    ) else {
        return Err(Failure::Memory);
    };
    let Ok(id) = Box::new(
        alloc,
        move |value: &Value|
            ensures { Told (λ e. e ≡ Memory) result (IsId value.now) }
        { id_check(alloc, value) },
    ) else {
        return Err(Failure::Memory);
    };
    // Each value that an enum of introspection declares is accepted.
    let Ok(type_kind) = Box::new(
        alloc,
        |_value: &Value|
            ensures { result ≡ Ok tt }
        { Ok(()) },
    ) else {
        return Err(Failure::Memory);
    };
    let Ok(directive_location) = Box::new(
        alloc,
        |_value: &Value|
            ensures { result ≡ Ok tt }
        { Ok(()) },
    ) else {
        return Err(Failure::Memory);
    };
    let checks = StandardChecks {
        int: TypeCheck::new(int),
        string: TypeCheck::new(string),
        boolean: TypeCheck::new(boolean),
        id: TypeCheck::new(id),
        introspection: IntrospectionChecks {
            type_kind: TypeCheck::new(type_kind),
            directive_location: TypeCheck::new(directive_location),
        },
    };
    let mut reader = Piped::new(rt.reader());
    let mut writer = Piped::new(io::writer(rt));
    let served = run_allowed(
        alloc,
        schema.as_slice(),
        records.as_slice(),
        allowed,
        checks,
        &mut reader,
        &mut writer,
    );
    match served {
        Ok(()) => Ok(()),
        Err(fault) => Err(failure_of(alloc, schema.as_slice(), records.as_slice(), fault)),
    }
}

fn main(rt: HostRuntime) -> ExitCode {
    match run(&rt) {
        Ok(()) => ExitCode::SUCCESS,
        Err(failure) => {
            let _ = eprintln!(&rt; "{failure}");
            ExitCode::from(failure.status())
        }
    }
}
