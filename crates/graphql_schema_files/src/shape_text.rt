//! The line that tells which member of a file has not its shape.

use crate::misshapen::key_of;
use crate::wanted::{Member, ShapeFault, Wanted};
use std::fmt;

/// Writes what is wanted, as `a text`.
impl fmt::Display for Wanted {
    ghost use Rattle.std.specs.Prelude.{Some};
    ghost use Rattle.graphql_schema_files.specs.ShapeTexts.{wanted_text};

    ghost output = { λ wanted. Some (wanted_text wanted) };

    fn fmt<W: fmt::Write>(&self, f: &mut fmt::Formatter<W>) -> fmt::Result {
        match self {
            Wanted::Object => f.write_str("an object"),
            Wanted::List => f.write_str("a list"),
            Wanted::Text => f.write_str("a text"),
            Wanted::Kind => f.write_str("\"object\", \"interface\" or \"union\""),
        }
    }
}

/// The object in which a fault stands: the file, a type, a field of it, or an argument of that.
#[derive(Clone, Copy)]
struct Path {
    type_index: Option<usize>,
    field_index: Option<usize>,
    argument_index: Option<usize>,
}

impl fmt::Display for Path {
    ghost use Rattle.std.specs.Prelude.{Some};
    ghost use Rattle.graphql_schema_files.specs.ShapeTexts.{path_text};

    ghost output = { λ path.
        Some (path_text path.type_index path.field_index path.argument_index) };

    fn fmt<W: fmt::Write>(&self, f: &mut fmt::Formatter<W>) -> fmt::Result {
        match (self.type_index, self.field_index, self.argument_index) {
            (None, _, _) => f.write_str("$"),
            (Some(at), None, _) => write!(f, "$.types[{at}]"),
            (Some(at), Some(field), None) => write!(f, "$.types[{at}].fields[{field}]"),
            (Some(at), Some(field), Some(argument)) => {
                write!(f, "$.types[{at}].fields[{field}].args[{argument}]")
            }
        }
    }
}

/// The step from an object to a member of it, and to an item of the member's list.
#[derive(Clone, Copy)]
struct Step {
    member: Option<Member>,
    name_index: Option<usize>,
}

impl fmt::Display for Step {
    ghost use Rattle.std.specs.Prelude.{Some};
    ghost use Rattle.graphql_schema_files.specs.ShapeTexts.{member_text};

    ghost output = { λ step. Some (member_text step.member step.name_index) };

    fn fmt<W: fmt::Write>(&self, f: &mut fmt::Formatter<W>) -> fmt::Result {
        match (self.member, self.name_index) {
            (None, _) => Ok(()),
            (Some(member), None) => {
                let key = key_of(member);
                write!(f, ".{key}")
            }
            (Some(member), Some(name)) => {
                let key = key_of(member);
                write!(f, ".{key}[{name}]")
            }
        }
    }
}

/// Writes the member's path in JSON (RFC 9535), items counted from zero, and what is wanted there:
/// `$.types[0].fields[1].name: a text is wanted`.
impl fmt::Display for ShapeFault {
    ghost use Rattle.std.specs.Prelude.{Some};
    ghost use Rattle.graphql_schema_files.specs.ShapeTexts.{shape_text};

    ghost output = { λ fault. Some (shape_text fault) };

    fn fmt<W: fmt::Write>(&self, f: &mut fmt::Formatter<W>) -> fmt::Result {
        let path = Path {
            type_index: self.type_index,
            field_index: self.field_index,
            argument_index: self.argument_index,
        };
        let step = Step {
            member: self.member,
            name_index: self.name_index,
        };
        let wanted = self.wanted;
        write!(f, "{path}{step}: {wanted} is wanted")
    }
}
