//! Laws of the values of arguments: each function's contract is a law, and its body does nothing.

ghost use Rattle.graphql_written_out.specs.Laws.{AgreesWithConstants, ConstantsStay};

/// A literal without variables is itself, whatever values variables have.
pub fn constants_stay<S>()
    ensures { ConstantsStay S }
{}

/// Where each variable in a literal has a value, it is the value that `InputValue::into_const`
/// gives.
pub fn agrees_with_constants<S>()
    ensures { AgreesWithConstants S }
{}
