//! Where in a file of records a fault stands.

use crate::shape_place::ShapePlace;
use graphql_text::Text;
use std::fmt;

/// Where in a file of records a fault stands.
#[derive(Debug, Drop)]
pub enum RecordPlace {
    /// At the root's id, which this is.
    Root(Text),

    /// At the record of this id.
    Record(Text),

    /// At the record of the first, its id, the field of the second, its name.
    Field(Text, Text),

    /// At a member that has not its shape.
    Shape(ShapePlace),
}

/// Writes the place as `root "q"`, `record "h1"` or `record "h1", field "name"`, the id and the
/// name as they stand; a member that has not its shape as a path, with what is wanted there.
impl fmt::Display for RecordPlace {
    ghost use Rattle.std.specs.Prelude.{Some};
    ghost use Rattle.graphql_data_files.specs.PlaceTexts.{record_place_text};

    ghost output = { λ place. Some (record_place_text place) };

    fn fmt<W: fmt::Write>(&self, f: &mut fmt::Formatter<W>) -> fmt::Result {
        match self {
            RecordPlace::Root(id) => write!(f, "root \"{id}\""),
            RecordPlace::Record(id) => write!(f, "record \"{id}\""),
            RecordPlace::Field(id, name) => write!(f, "record \"{id}\", field \"{name}\""),
            RecordPlace::Shape(place) => write!(f, "{place}"),
        }
    }
}
