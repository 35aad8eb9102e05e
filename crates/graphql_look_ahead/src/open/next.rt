//! What comes first in a list.

ghost use Rattle.std.specs.Prelude.{◌≡◌, MatchOption};
ghost use Rattle.graphql_collected.specs.Requests.{drops_in, fragments_in};
ghost use Rattle.graphql_look_ahead.specs.Open.{IsMet, IsNext, IsUnknown, rest_of};

use super::{Met, Open};
use graphql_collected::Request;
use graphql_schema::SchemaScalar;
use graphql_tree::Selection;

/// This selection, with the fragment that it means if it is a spread; `None` where it means none.
fn meet<'d, 'a, S: SchemaScalar>(
    request: &Request<'d, 'a, S>,
    first: &'d Selection<'a, S>,
) -> Option<Met<'d, 'a, S>>
    ensures { MatchOption result (IsUnknown (fragments_in request.now) first.now)
        (IsMet (fragments_in request.now) first.now) }
{
    match first {
        Selection::Field(field) => Some(Met::Field(field)),
        Selection::InlineFragment(inline) => Some(Met::Inline(inline)),
        Selection::FragmentSpread(spread) => {
            match request.fragments.get(spread.item.name.item.as_str()) {
                Some(fragment) => Some(Met::Spread(spread, fragment)),
                None => None,
            }
        }
    }
}

impl<'d, 'a, S: SchemaScalar> Open<'d, 'a, S> {
    /// Goes behind the first selection that is left, and behind the spreads before it that mean no
    /// fragment; `None` at the end.
    pub(crate) fn next(&mut self, request: &Request<'d, 'a, S>) -> Option<Met<'d, 'a, S>>
        ensures next { IsNext (drops_in S.answer request.now) (fragments_in request.now)
            (rest_of self.old) result (rest_of self.new) }
        ensures applies { self.new.applies ≡ self.old.applies }
    {
        'rest: while let Some(first) = self.among.get(self.next) {
            self.next += 1;
            if let Some(met) = meet(request, first) {
                return Some(met);
            }
        }
        None
    }
}
