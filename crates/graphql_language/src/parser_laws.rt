//! Laws of what stands next, and of lists: each function's contract is a law, and its body does
//! nothing.

ghost use Rattle.std.specs.Prelude.{Bool, List};
ghost use Rattle.graphql_grammar.specs.Input.{Located};
ghost use Rattle.graphql_language.specs.Leaves.{ListsLeaveRest, SomeListsLeaveRest};
ghost use Rattle.graphql_language.specs.Literals.{NextValue, NextType, NeverBoth, ReadOrRefused};
ghost use Rattle.graphql_language.specs.Literals.{OneRefusal};
ghost use Rattle.graphql_language.specs.SpelledLists.{ListsAreSpelled, SomeListsAreSpelled};

use crate::parser::Parser;
use graphql_grammar::Fault;
use graphql_values::ScalarValue;
use std::marker::Brand;

/// A production of a grammar.
pub trait Production<T> {
    /// Whether these tokens spell this tree.
    ghost spells: { List Located → T → Type 0 };
}

/// Spells nothing by itself: a proof that cites a law picks what is spelled.
impl<T> Production<T> for Brand {
    ghost spells = { λ tokens tree. ⊥ };
}

/// What stands next is a value or refused, by one fault, and never both (GraphQL October 2021, 2.9
/// Input Values).
/// So where tokens in front spell a value it is read, whatever follows it.
pub fn value_or_refused<S: ScalarValue>()
    ensures one { (is_const : Bool) → ReadOrRefused (NextValue S S.reads S.of_bool is_const) }
    ensures never_both { (is_const : Bool) → NeverBoth (NextValue S S.reads S.of_bool is_const) }
    ensures one_fault { (is_const : Bool) → OneRefusal (NextValue S S.reads S.of_bool is_const) }
{}

/// What stands next is a type reference or refused, by one fault, and never both (GraphQL October
/// 2021, 2.11 Type References). So where tokens in front spell a type reference one is read,
/// whatever follows it.
pub fn type_or_refused()
    ensures one { ReadOrRefused NextType }
    ensures never_both { NeverBoth NextType }
    ensures one_fault { OneRefusal NextType }
{}

/// Where the function that reads an item reads what a production spells, a list between two tokens
/// spells its items between them: any number of them by `delimited_list`, and one at least by
/// `delimited_nonempty_list` and `unlocated_delimited_nonempty_list`.
pub fn lists_are_spelled<'a, T, F: Fn(&mut Parser<'a>) -> Result<T, Fault>, P: Production<T>>()
    ensures any { ListsAreSpelled F.Fn P.spells }
    ensures some { SomeListsAreSpelled F.Fn P.spells }
{}

/// Where the function that reads an item leaves what stands behind the tokens that it read, and by
/// a refusal stops at the token that its fault is about, so does a list between two tokens: what is
/// left then is the rest of the text from that token on.
pub fn lists_leave_the_rest<'a, T, F: Fn(&mut Parser<'a>) -> Result<T, Fault>>()
    ensures any { ListsLeaveRest F.Fn }
    ensures some { SomeListsLeaveRest F.Fn }
{}
