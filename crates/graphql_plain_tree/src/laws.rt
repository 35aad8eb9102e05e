//! Laws of plain selection sets: each function's contract is a law, and its body does nothing.

ghost use Rattle.graphql_plain_tree.specs.Laws.{DocumentIsItsTree, FieldsOfPlain};
ghost use Rattle.graphql_plain_tree.specs.Laws.{IsPlainThroughout, NotHigher, OnePlain};
ghost use Rattle.graphql_plain_tree.specs.Laws.{OperationAgain, PlainAgain, PlainStays};
ghost use Rattle.graphql_plain_tree.specs.Laws.{StandInLeavesOut, StaysFilled, UsesNoMore};

use graphql_values::ScalarValue;

/// Of each selection set one set is plain: where one selection at least is kept, those that are
/// kept, each with a plain set and without directives; where all are left out, the first alone, in
/// their stead.
pub fn one_plain<S>()
    ensures { OnePlain S }
{}

/// For each object type a plain set has the fields of the set, in order, each with its own set
/// plain (GraphQL October 2021, 6.3.2 Field Collection).
pub fn fields_of_plain<S>()
    ensures { FieldsOfPlain S }
{}

/// In a plain set the only directives are those of stand-ins, each of which is alone in its set.
pub fn plain_throughout<S>()
    ensures { IsPlainThroughout S }
{}

/// A set in which the only directives are those of stand-ins, each alone in its set, is its own
/// plain set, whatever values variables have.
pub fn plain_stays<S>()
    ensures { PlainStays S }
{}

/// A plain set is its own plain set, also where variables have other values.
pub fn plain_again<S>()
    ensures { PlainAgain S }
{}

/// A plain set is no higher than the set, and has no more fields and inline fragments.
pub fn not_higher<S>()
    ensures { NotHigher S }
{}

/// A plain set is empty exactly where the set is. Where no inline fragment has an empty set, and a
/// field a set exactly where one was written, the same is so of the plain set.
pub fn stays_filled<S>()
    ensures { StaysFilled S }
{}

/// The fields of a plain set use no variable that the fields of the set do not use.
pub fn uses_no_more<S>()
    ensures { UsesNoMore S }
{}

/// A selection with the one directive `skip(if: true)` is left out, and one without directives is
/// not, whatever values variables have (GraphQL October 2021, 3.13.1 @skip).
pub fn stand_in_leaves_out<S: ScalarValue>()
    ensures { StandInLeavesOut S.answer S.of_bool }
{}

/// The document of a plain operation has its plain set: without fragments of its own, its selection
/// set is written out as the plain set, with each field at no place. This holds where no inline
/// fragment of the operation has an empty set, and a field a set exactly where one was written.
pub fn document_is_its_tree<S: ScalarValue>()
    ensures { DocumentIsItsTree S.answer S.of_bool }
{}

/// The operation of that document is its own plain operation, with its type, its name, all its
/// variables and its plain set, each field at no place, also where variables have other values.
pub fn operation_again<S: ScalarValue>()
    ensures { OperationAgain S.answer S.of_bool }
{}
