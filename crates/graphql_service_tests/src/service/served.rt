//! Services over the sample, and what is asserted of them.

ghost use Rattle.std.specs.Prelude.{◌≡◌, Ok};
ghost use Rattle.graphql_text.specs.Memory.{Told};
ghost use Rattle.graphql_scalars.specs.declared.check_error.CheckError.TheVariants.{Memory};
ghost use Rattle.graphql_schema.specs.ScalarChecks.{IsBoolean, IsId, IsInt, IsString};

use crate::service::alike::{self, are_alike};
use crate::service::files::{is_told, served};
use crate::service::in_three::{self, are_joined_in_three};
use crate::service::introspected::tells_of_itself;
use crate::service::joined::{self, are_joined};
use crate::service::plain::{self, tells, tells_chain};
use crate::service::schemas::{is_refused, unkept, with_other_skip};
use crate::service::serving::{Run, are_served};
use graphql_file_service::sample;
use graphql_file_service::service::scalar_checks::{
    boolean_check, id_check, int_check, string_check,
};
use graphql_file_service::service::{Service, ServiceFault, StandardChecks};
use graphql_sample::{SampleRecords, SampleResolver, sample_records, schema_by, schema_s};
use graphql_schema::{IntrospectionChecks, RootNode, SchemaType, TypeCheck};
use graphql_values::{DefaultScalarValue, InputValue};
use std::alloc::{AllocError, Global};
use std::process::Abort;

type Value = InputValue<DefaultScalarValue>;

/// A service over the sample's schema and resolver.
pub type SampleService = Service<DefaultScalarValue, SampleResolver, SampleRecords>;

/// A line, its answer without the line feed, and how often the resolver has been asked for a field
/// of a mutation by then.
pub type Row<'a> = (&'a str, &'a str, u32);

/// What is asserted of services.
#[derive(Clone, Copy)]
pub enum Asked<'a> {
    /// What lines of at most so many bytes are answered over the sample's records.
    Lines(usize, &'a [Row<'a>]),

    /// The same where the human of this `id` has no name.
    Nameless(&'a str, &'a [Row<'a>]),

    /// What lines are answered where introspection is disabled.
    Hidden(&'a [Row<'a>]),

    /// That the introspection query is answered.
    Introspected,

    /// How runs over input end, and what they write.
    Runs(&'a [Run<'a>]),

    /// What a line is told of its plain text.
    Plain(plain::Row<'a>),

    /// What a line with a chain of fragments is told of its plain text.
    Chain(plain::Chain),

    /// What lines are answered over the schema with `find`, to which exactly one field is given.
    Finding(&'a [Row<'a>]),

    /// What a line is told of its plain text over that schema.
    PlainFinding(plain::Row<'a>),

    /// That requests and their plain texts are answered alike over that schema.
    AlikeFinding(&'a [alike::Row<'a>]),

    /// That requests and their plain texts are answered alike, and leave the same records.
    Alike(&'a [alike::Row<'a>]),

    /// What is answered of queries' parts, and of the whole, where the human of this `id` has no
    /// name.
    InParts(&'a str, &'a [joined::Row<'a>]),

    /// That three queries are answered apart what one query of all three is answered.
    InThree(&'a [in_three::Row<'a>]),

    /// That a schema whose types do not keep what they promise makes no service.
    Unkept,

    /// That a schema with another `skip` makes no service.
    OtherSkip,

    /// That a schema whose `Boolean` takes texts, and not `true`, makes no service.
    OtherBoolean,

    /// That no files are served with such a `Boolean`.
    FilesOfOtherBoolean,

    /// Why a file of a schema and one of its records are not served; the empty text where they are.
    Files(&'a str, &'a str, &'a str),
}

/// The sample's records, with no name of the human of this `id`.
pub fn nameless(alloc: Global, id: &str) -> Result<SampleRecords, AllocError> {
    let mut sample = sample_records(alloc)?;
    for human in sample.records.as_mut_slice() {
        if human.id.as_str() == id {
            human.name = None;
        }
    }
    Ok(sample)
}

/// Asserts what lines are answered, and how often the resolver was asked for a field of a mutation.
fn are_answered(rt: &impl Abort, alloc: Global, service: &mut SampleService, rows: &[Row<'_>]) {
    let mut out = Vec::new(alloc);
    for row in rows {
        let is_answered = service.answer(alloc, row.0.as_bytes(), &mut out).is_ok();
        assert!(rt; is_answered);
        let (end, front) = match out.as_slice().split_last() {
            Some((end, front)) => (*end, front),
            None => (0, row.1.as_bytes()),
        };
        assert_eq!(rt; front, row.1.as_bytes());
        assert_eq!(rt; end, b'\n');
        assert_eq!(rt; service.context().root_calls, row.2);
    }
}

/// A service whose lines have at most so many bytes.
fn service(
    rt: &impl Abort,
    schema: SchemaType<DefaultScalarValue>,
    records: SampleRecords,
    limit: usize,
) -> SampleService {
    service_of(rt, RootNode::new(schema), records, limit)
}

/// The same of a root node.
fn service_of(
    rt: &impl Abort,
    root: RootNode<DefaultScalarValue>,
    records: SampleRecords,
    limit: usize,
) -> SampleService {
    Service::new(root, SampleResolver, records, limit, 10_000).expect(rt, "a service")
}

/// Asserts of services over the sample's schema what lines are answered, and how runs end.
fn with_schema(
    rt: &impl Abort,
    alloc: Global,
    schema: SchemaType<DefaultScalarValue>,
    asked: Asked<'_>,
) {
    let records = sample_records(alloc).expect(rt, "memory");
    match asked {
        Asked::Lines(limit, rows) => {
            are_answered(rt, alloc, &mut service(rt, schema, records, limit), rows);
        }
        Asked::Nameless(id, rows) => {
            let records = nameless(alloc, id).expect(rt, "memory");
            are_answered(rt, alloc, &mut service(rt, schema, records, 65_536), rows);
        }
        Asked::Hidden(rows) => {
            let root = RootNode::new(schema).disable_introspection();
            are_answered(rt, alloc, &mut service_of(rt, root, records, 65_536), rows);
        }
        Asked::Introspected => tells_of_itself(rt, alloc, schema),
        Asked::Plain(row) => tells(rt, alloc, schema, row),
        Asked::Chain(row) => tells_chain(rt, alloc, schema, row),
        Asked::Alike(rows) => are_alike(rt, alloc, schema, rows),
        Asked::InParts(id, rows) => {
            let service = service(rt, schema, records, 65_536);
            let mut records = nameless(alloc, id).expect(rt, "memory");
            are_joined(rt, alloc, &service, &mut records, rows);
        }
        Asked::InThree(rows) => {
            let service = service(rt, schema, records, 65_536);
            let mut records = sample_records(alloc).expect(rt, "memory");
            are_joined_in_three(rt, alloc, &service, &mut records, rows);
        }
        Asked::Runs(runs) => are_served(rt, alloc, &mut service(rt, schema, records, 80), runs),
        _ => {
            let schema = with_other_skip(rt, alloc, schema);
            is_refused(rt, alloc, schema, ServiceFault::OtherConditions);
        }
    }
}

/// The checks by which `Boolean` takes texts, and `String` truth values.
fn with_texts(checks: StandardChecks) -> StandardChecks {
    StandardChecks {
        int: checks.int,
        string: checks.boolean,
        boolean: checks.string,
        id: checks.id,
        introspection: checks.introspection,
    }
}

/// What is asserted of a schema without `find` in the place of what is asserted of the one with it.
fn of_any(asked: Asked<'_>) -> Option<Asked<'_>> {
    match asked {
        Asked::Finding(rows) => Some(Asked::Lines(65_536, rows)),
        Asked::PlainFinding(row) => Some(Asked::Plain(row)),
        Asked::AlikeFinding(rows) => Some(Asked::Alike(rows)),
        _ => None,
    }
}

/// Asserts of services over a schema with these checks.
fn with_checks(
    rt: &impl Abort,
    alloc: Global,
    checks: StandardChecks,
    by: TypeCheck,
    asked: Asked<'_>,
) {
    if let Some(asked) = of_any(asked) {
        let schema = schema_by(alloc, checks, by).expect(rt, "a schema");
        return with_schema(rt, alloc, schema, asked);
    }
    if let Asked::Unkept = asked {
        let schema = unkept(rt, alloc, checks);
        return is_refused(rt, alloc, schema, ServiceFault::NotExecutable);
    }
    if let Asked::OtherBoolean = asked {
        let schema = schema_s(alloc, with_texts(checks)).expect(rt, "a schema");
        return is_refused(rt, alloc, schema, ServiceFault::OtherBoolean);
    }
    let schema = schema_s(alloc, checks).expect(rt, "a schema");
    with_schema(rt, alloc, schema, asked);
}

/// Asserts of services over the sample's schema, or of files.
pub fn over(rt: &impl Abort, alloc: Global, asked: Asked<'_>) {
    let int = TypeCheck::new(Box::new(
        alloc,
        move |value: &Value|
            ensures { Told (λ e. e ≡ Memory) result (IsInt value.now) }
        { int_check(alloc, value) },
    )
    .expect(rt, "memory"));
    let string = TypeCheck::new(Box::new(
        alloc,
        move |value: &Value|
            ensures { Told (λ e. e ≡ Memory) result (IsString value.now) }
        { string_check(alloc, value) },
    )
    .expect(rt, "memory"));
    let boolean = TypeCheck::new(Box::new(
        alloc,
        move |value: &Value|
            ensures { Told (λ e. e ≡ Memory) result (IsBoolean value.now) }
        { boolean_check(alloc, value) },
    )
    .expect(rt, "memory"));
    let id = TypeCheck::new(Box::new(
        alloc,
        move |value: &Value|
            ensures { Told (λ e. e ≡ Memory) result (IsId value.now) }
        { id_check(alloc, value) },
    )
    .expect(rt, "memory"));
    // Each value that an enum of introspection declares is accepted.
    let type_kind = TypeCheck::new(Box::new(
        alloc,
        |_value: &Value|
            ensures { result ≡ Ok tt }
        { Ok(()) },
    )
    .expect(rt, "memory"));
    let directive_location = TypeCheck::new(Box::new(
        alloc,
        |_value: &Value|
            ensures { result ≡ Ok tt }
        { Ok(()) },
    )
    .expect(rt, "memory"));
    let by = TypeCheck::new(Box::new(
        alloc,
        |_value: &Value|
            ensures { result ≡ Ok tt }
        { Ok(()) },
    )
    .expect(rt, "memory"));
    let introspection = IntrospectionChecks {
        type_kind,
        directive_location,
    };
    let checks = StandardChecks {
        int,
        string,
        boolean,
        id,
        introspection,
    };
    if let Asked::FilesOfOtherBoolean = asked {
        let files = (sample::SCHEMA, sample::RECORDS);
        let told = served(alloc, files, with_texts(checks));
        return is_told(rt, alloc, told, "schema: OtherBoolean");
    }
    if let Asked::Files(schema, records, wanted) = asked {
        return is_told(rt, alloc, served(alloc, (schema, records), checks), wanted);
    }
    with_checks(rt, alloc, checks, by, asked);
}
