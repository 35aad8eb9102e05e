//! Laws of the parts of plain documents: each function's contract is a law, and its body does
//! nothing.

ghost use Rattle.graphql_plain_validity.specs.PartLaws.{PlainKindsStem, PlainPartsStem};
ghost use Rattle.graphql_plain_validity.specs.PartLaws.{ReachedPartsOccur};

use graphql_values::ScalarValue;

/// What an operation reaches occurs in its document: the parts of the operation, and those of the
/// fragments that it reaches.
pub fn reached_parts_occur<S, C>()
    ensures { ReachedPartsOccur S C }
{}

/// Each part of a plain document stems from its request, under the same types: places aside it is a
/// part that the operation reaches, and neither a spread nor a directive; or the inline fragment
/// that stands for a spread that it reaches; or it is of the directive of a stand-in.
pub fn plain_parts_stem<S: ScalarValue, C>()
    ensures { PlainPartsStem S C S.answer S.of_bool }
{}

/// By kinds: each variable, condition, field, object and use of a variable in a plain document is
/// one that the operation reaches, places aside; there is no spread; each inline fragment is one
/// that it reaches, or stands for a spread; each directive is a stand-in's.
pub fn plain_kinds_stem<S: ScalarValue, C>()
    ensures { PlainKindsStem S C S.answer S.of_bool }
{}
