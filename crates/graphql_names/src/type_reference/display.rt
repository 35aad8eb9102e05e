ghost use Rattle.std.specs.Prelude.{Some};
ghost use Rattle.std.specs.List.{flat_map};
ghost use Rattle.std.specs.Fmt.{WritesOnOk};
ghost use Rattle.graphql_names.specs.TypeReference.{opening, closing, written_type};

use super::Type;
use crate::type_modifier::TypeModifier;
use std::convert::{AsSlice, AsStr};
use std::fmt;

/// Writes what stands before a type's name.
fn write_openings<W: fmt::Write>(
    f: &mut fmt::Formatter<W>,
    modifiers: &[TypeModifier],
) -> fmt::Result
    ensures { WritesOnOk W.write_str_gives f.old result (flat_map opening modifiers.now) f.new }
{
    for modifier in modifiers {
        match modifier {
            TypeModifier::NonNull => {}
            TypeModifier::List(_) => f.write_str("[")?,
        }
    }
    Ok(())
}

/// Writes what stands behind a type's name.
fn write_closings<W: fmt::Write>(
    f: &mut fmt::Formatter<W>,
    modifiers: &[TypeModifier],
) -> fmt::Result
    ensures { WritesOnOk W.write_str_gives f.old result (flat_map closing modifiers.now) f.new }
{
    for modifier in modifiers {
        match modifier {
            TypeModifier::NonNull => f.write_str("!")?,
            TypeModifier::List(_) => f.write_str("]")?,
        }
    }
    Ok(())
}

/// Writes the type as a document does, as `[Int!]!`; lengths of lists are left out.
impl<N: AsStr, M: AsSlice<TypeModifier>> fmt::Display for Type<N, M> {
    ghost output = { λ t. Some (written_type (N.text t.name) (M.items t.modifiers)) };

    fn fmt<W: fmt::Write>(&self, f: &mut fmt::Formatter<W>) -> fmt::Result {
        write_openings(f, self.modifiers())?;
        f.write_str(self.innermost_name())?;
        write_closings(f, self.modifiers())
    }
}
