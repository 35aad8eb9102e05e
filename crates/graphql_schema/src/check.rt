//! Checks: whether a value is one of a scalar, an enum or an input object.

ghost use Rattle.std.specs.Prelude.{◌≡◌};
ghost use Rattle.graphql_text.specs.Memory.{Told};
ghost use Rattle.graphql_scalars.specs.declared.check_error.CheckError.TheVariants.{Memory};
ghost use Rattle.graphql_schema.specs.Checks.{IsConsistent};

use graphql_scalars::CheckError;
use graphql_values::{DefaultScalarValue, InputValue, ScalarValue};

/// What accepts or refuses the values that are given to a type (GraphQL October 2021, 3.5 Scalars,
/// 3.9 Enums, 3.10 Input Objects: input coercion).
pub trait Check<S: PartialEq> {
    ghost use Rattle.graphql_values.specs.declared.input_value.InputValue.{InputValue};
    ghost use Rattle.graphql_values.specs.SameValue.{SameValue};

    /// It accepts the value.
    ghost accepts: { Self → InputValue S → Type 0 };

    /// Whether it accepts the value: `Ok` where it does. `CheckError::Message` says why it does
    /// not. `CheckError::Memory` is want of memory, and tells nothing of the value.
    fn check(&self, value: &InputValue<S>) -> Result<(), CheckError>
        ensures { Told (λ e. e ≡ Memory) result (accepts self.now value.now) };

    /// Of values that are the same wherever they stand, it accepts all or none.
    ghost respects_same: { (c : Self) (a b : InputValue S) → SameValue S S.eq a b → accepts c a
        → accepts c b };
}

/// Scalars that a schema may be over: they name the checks of its types.
pub trait SchemaScalar: ScalarValue {
    /// What its checks are.
    type Check: Check<Self> + Drop;
}

type Function = Box<dyn Fn(&InputValue<DefaultScalarValue>) -> Result<(), CheckError>>;

/// A function that accepts or refuses values.
#[derive(Drop)]
pub struct TypeCheck {
    function: Function,
    ghost callable: { Function.IsAlwaysCallable function },
    ghost consistent: { IsConsistent ⟦<DefaultScalarValue as PartialEq>⟧.eq (Function.post function) },
}

impl TypeCheck {
    /// The check that asks this function. Takes no memory: the caller makes the box.
    ///
    /// The function may be called on every value, and of values that are the same wherever they
    /// stand it accepts all or refuses all, want of memory aside. That follows from a clause of the
    /// closure, by which its answers tell whether a property holds of the value: of any property
    /// that such values have alike, by the lemma `consistent_by`, and so of each property of
    /// scalars, by `scalar_consistent`.
    pub fn new(function: Function) -> TypeCheck
        requires callable { Function.IsAlwaysCallable function }
        requires consistent { IsConsistent ⟦<DefaultScalarValue as PartialEq>⟧.eq
            (Function.post function) }
        ensures { result.function ≡ function }
    {
        TypeCheck { function }
    }

    /// What the function answers.
    fn ask(&self, value: &InputValue<DefaultScalarValue>) -> Result<(), CheckError>
        ensures { Function.post self.now.function value.entry result }
    {
        (self.function)(value)
    }
}

impl Check<DefaultScalarValue> for TypeCheck {
    ghost use Rattle.graphql_schema.specs.Checks.{Accepts, accepts_same};
    ghost use Rattle.graphql_scalars.specs.contracts.default_scalar.DefaultScalarValueEq.TheImpl.Laws.{lawful};

    ghost accepts = { λ c.
        Accepts ⟦<DefaultScalarValue as PartialEq>⟧.eq (Function.post c.function) };

    ghost respects_same = { λ c a b same accepted. accepts_same lawful.laws a b same accepted };

    fn check(&self, value: &InputValue<DefaultScalarValue>) -> Result<(), CheckError> {
        self.ask(value)
    }
}

impl SchemaScalar for DefaultScalarValue {
    type Check = TypeCheck;
}
