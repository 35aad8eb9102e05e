//! Laws of what is given: each function's contract is a law, and its body does nothing.

ghost use Rattle.std.specs.Prelude.{◌≡◌};
ghost use Rattle.graphql_arguments.specs.ArgumentValues.{Given};
ghost use Rattle.graphql_arguments.specs.SameArguments.{SameArguments, SameInOrder};
ghost use Rattle.graphql_scalars.specs.declared.default_scalar.DefaultScalarValue.{DefaultScalarValue};
ghost use Rattle.graphql_resolvers.specs.Inputs.{inputs_of};

use graphql_scalars::DefaultScalarValue;

/// Arguments that are the same give the same at each path of names, in whichever order and wherever
/// they stand, and so do those that are the same in one order: scalars and enum values, lists of
/// them, and the fields of input objects, however deep. So what is answered by these alone is
/// answered alike.
pub fn same_arguments_give_the_same()
    ensures each { (a b : Given DefaultScalarValue) → SameArguments
        ⟦<DefaultScalarValue as PartialEq>⟧.eq a b → inputs_of a ≡ inputs_of b }
    ensures in_order { (a b : Given DefaultScalarValue) → SameInOrder
        ⟦<DefaultScalarValue as PartialEq>⟧.eq a b → inputs_of a ≡ inputs_of b }
{}
