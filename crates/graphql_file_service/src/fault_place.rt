//! Where in the files the fault of a run stands.

use graphql_data_files::RecordPlace;
use graphql_schema_files::{DeclarationPlace, FieldPlace, ShapeFault};
use graphql_text::Text;
use std::fmt;

/// Where a file stops being JSON, as `serde_json` tells.
#[derive(Clone, Copy, Debug, PartialEq, Eq)]
pub struct TextPlace {
    /// The line, counted from one.
    pub line: usize,

    /// The byte in the line, counted from one. At the end of the file it is the last byte of the
    /// line, and 0 where the line is empty.
    pub column: usize,
}

/// A promise that a type of the schema makes by listing the name of an interface, and does not keep
/// (GraphQL October 2021, 3.6 Objects: Type Validation, IsValidImplementation).
#[derive(Debug, Drop)]
pub struct PromisePlace {
    /// The name of the type.
    pub type_name: Text,

    /// The name that it lists among its interfaces.
    pub interface: Text,

    /// The name of the interface's first field that the type lacks in the promised form, if a field
    /// is to blame.
    pub field: Option<Text>,
}

/// Where in the files the fault of a run stands.
#[derive(Debug, Drop)]
pub enum FaultPlace {
    /// In a file that is no JSON.
    Json(TextPlace),

    /// At a member of the schema's file that has not its shape.
    Shape(ShapeFault),

    /// At a type, a field or an argument of the schema's file.
    Declaration(DeclarationPlace),

    /// At a type of the schema that does not keep what it promises.
    Promise(PromisePlace),

    /// At a record of the second file, or at the root's id.
    Record(RecordPlace),
}

/// Writes the place in one line, names and ids as they stand.
impl fmt::Display for FaultPlace {
    ghost use Rattle.std.specs.Prelude.{Some};
    ghost use Rattle.graphql_file_service.specs.PlaceTexts.{place_text};

    ghost output = { λ place. Some (place_text place) };

    fn fmt<W: fmt::Write>(&self, f: &mut fmt::Formatter<W>) -> fmt::Result {
        match self {
            FaultPlace::Json(TextPlace { line, column }) => {
                write!(f, "line {line}, column {column}")
            }
            FaultPlace::Shape(fault) => write!(f, "{fault}"),
            FaultPlace::Declaration(
                DeclarationPlace {
                    type_name,
                    field: None,
                },
            ) => write!(f, "type \"{type_name}\""),
            FaultPlace::Declaration(
                DeclarationPlace {
                    type_name,
                    field: Some(
                        FieldPlace {
                            name,
                            argument: None,
                        },
                    ),
                },
            ) => write!(f, "type \"{type_name}\", field \"{name}\""),
            FaultPlace::Declaration(
                DeclarationPlace {
                    type_name,
                    field: Some(
                        FieldPlace {
                            name,
                            argument: Some(argument),
                        },
                    ),
                },
            ) => write!(
                f,
                "type \"{type_name}\", field \"{name}\", argument \"{argument}\""
            ),
            FaultPlace::Promise(
                PromisePlace {
                    type_name,
                    interface,
                    field: None,
                },
            ) => write!(f, "type \"{type_name}\", interface \"{interface}\""),
            FaultPlace::Promise(
                PromisePlace {
                    type_name,
                    interface,
                    field: Some(field),
                },
            ) => write!(
                f,
                "type \"{type_name}\", interface \"{interface}\", field \"{field}\""
            ),
            FaultPlace::Record(place) => write!(f, "{place}"),
        }
    }
}
