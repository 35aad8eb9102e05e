//! At which member a file of records has not its shape.

use graphql_text::Text;
use std::fmt;

/// The member at which a file of records has not its shape. Records are counted from 0.
#[derive(Debug, Drop)]
pub enum ShapePlace {
    /// The file is no object.
    File,

    /// `roots` of the file is missing, or no object.
    Roots,

    /// `query` of `roots` is missing, or no text.
    Root,

    /// `records` of the file is missing, or no list.
    Records,

    /// This record is no object.
    Record(usize),

    /// `id` of this record is missing, or no text.
    Id(usize),

    /// `type` of this record is missing, or no text.
    Type(usize),

    /// `fields` of this record is missing, or no object.
    Fields(usize),

    /// In this record, the field of this name is an object, or has one in its lists.
    Field(usize, Text),
}

/// Writes the member as a path (RFC 9535), and what is wanted there, as `$.records[0].id: a text is
/// wanted`. The name of a field stands as it is.
impl fmt::Display for ShapePlace {
    ghost use Rattle.std.specs.Prelude.{Some};
    ghost use Rattle.graphql_data_files.specs.PlaceTexts.{shape_place_text};

    ghost output = { λ place. Some (shape_place_text place) };

    fn fmt<W: fmt::Write>(&self, f: &mut fmt::Formatter<W>) -> fmt::Result {
        match self {
            ShapePlace::File => f.write_str("$: an object is wanted"),
            ShapePlace::Roots => f.write_str("$.roots: an object is wanted"),
            ShapePlace::Root => f.write_str("$.roots.query: a text is wanted"),
            ShapePlace::Records => f.write_str("$.records: a list is wanted"),
            ShapePlace::Record(at) => write!(f, "$.records[{at}]: an object is wanted"),
            ShapePlace::Id(at) => write!(f, "$.records[{at}].id: a text is wanted"),
            ShapePlace::Type(at) => write!(f, "$.records[{at}].type: a text is wanted"),
            ShapePlace::Fields(at) => write!(f, "$.records[{at}].fields: an object is wanted"),
            ShapePlace::Field(at, name) => write!(
                f,
                "$.records[{at}].fields[\"{name}\"]: a value or a list of values is wanted"
            ),
        }
    }
}
