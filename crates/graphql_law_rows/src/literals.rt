//! What becomes of literals once the values of variables are known, and which conform to a type.

ghost use Rattle.std.specs.Prelude.{◌≡◌, ◌↔◌, true, IfOk, Some};
ghost use Rattle.graphql_written_out.specs.Filled.{filled};
ghost use Rattle.graphql_literal_checks.specs.Conforms.{Conforms};
ghost use Rattle.graphql_literal_checks.specs.declared.source.Source.TheVariants.{Literal};
ghost use Rattle.graphql_values.specs.InputValues.{unlocated};
ghost use Rattle.graphql_law_rows.specs.SampleLiterals as spec;

use graphql_literal_checks::laws::conforming_without_places;
use graphql_literal_checks::validate_literal_value;
use graphql_names::Type;
use graphql_schema::{Meaning, SchemaScalar, SchemaType};
use graphql_text::Text;
use graphql_values::InputValue;
use graphql_written_out::laws::{agrees_with_constants, constants_stay};
use std::alloc::{AllocError, Global};

/// A list with a variable becomes the list with the variable's value, in which no variable stands,
/// so that it stays as it is where no variable has a value.
pub fn variables_get_their_values()
    ensures filled { filled spec.seven spec.one_and_x ≡ Some spec.one_and_seven }
    ensures stays { filled spec.no_values spec.one_and_seven ≡ Some spec.one_and_seven }
{
    agrees_with_constants::<u8>();
    constants_stay::<u8>();
}

/// Whether a literal conforms to a type of the schema: it does exactly where the same literal at
/// other places does. An error is want of memory.
pub fn conforms_wherever_it_stands<S: SchemaScalar>(
    alloc: Global,
    schema: &SchemaType<S>,
    asked: &Type<Text>,
    literal: &InputValue<S>,
) -> Result<bool, AllocError>
    ensures { let conforms_there =
        Conforms ⟦<S as Meaning>⟧.meaning schema.now.types Literal asked.now in
        IfOk result (λ conforms. (elsewhere : InputValue S)
        → unlocated elsewhere ≡ unlocated literal.now
        → (conforms ≡ true) ↔ conforms_there elsewhere) }
{
    conforming_without_places::<S>();
    let reason = validate_literal_value(alloc, schema, asked, literal)?;
    Ok(reason.is_none())
}
