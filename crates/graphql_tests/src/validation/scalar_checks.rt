ghost use Rattle.std.specs.Prelude.{◌≡◌, ◌↔◌};
ghost use Rattle.graphql_text.specs.Memory.{Told};
ghost use Rattle.graphql_scalars.specs.declared.check_error.CheckError.TheVariants.{Memory};
ghost use Rattle.graphql_schema.specs.ScalarChecks.{IsBoolean};

use graphql_validation::scalar_checks::boolean_check;
use graphql_validation::{Check, TypeCheck};
use graphql_values::{DefaultScalarValue, InputValue};
use std::test::Fail;

/// Takes a check that accepts `true` and `false`, and nothing else.
fn decides_conditions(check: &TypeCheck)
    requires exactly { (v : _)
        → ⟦<TypeCheck as Check<DefaultScalarValue>>⟧.accepts check.now v ↔ IsBoolean v }
{}

#[test]
fn boolean_accepts_truth_values(rt: HostRuntime) -> Result<(), Fail> {
    let alloc = rt.alloc();
    let boolean = TypeCheck::new(Box::new(
        alloc,
        move |value: &InputValue<DefaultScalarValue>|
            ensures { Told (λ e. e ≡ Memory) result (IsBoolean value.now) }
        { boolean_check(alloc, value) },
    )?);
    decides_conditions(&boolean);
    Ok(())
}
