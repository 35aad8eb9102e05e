//! Laws of the definitions: each function's contract is a law, and its body does nothing.

ghost use Rattle.graphql_http.specs.AcceptLaws.{ChoosesByRanges};
ghost use Rattle.graphql_http.specs.ConnectionLaws.{CallsAreLines, OnlyPostChanges};
ghost use Rattle.graphql_http.specs.DraftRows.{AcceptRows, ContentRows, StatusRows, WeightRows};

use crate::engine::RequestEngine;

/// The media type of an answer is one that a media range of the request names with a weight above
/// zero, and none to which the range that names it most nearly gives more weight; a request without
/// `Accept` gets `application/json` (RFC 9110, 12.5.1 Accept).
pub fn media_types_are_chosen_by_ranges()
    ensures { ChoosesByRanges }
{}

/// Over a connection the engine is asked the lines that the requests ask, in order, and nothing
/// else, each on what the lines before it left, and the body of each response to them is the
/// answer. Where memory runs out the request is told so, and no request comes after it.
pub fn calls_are_lines<E: RequestEngine>()
    ensures { CallsAreLines E.answers E.breaks E.mutates E.limit }
{}

/// No request but one by POST changes the context, also where memory runs out.
pub fn only_post_changes<E: RequestEngine>()
    ensures { OnlyPostChanges E.answers E.breaks E.mutates E.limit E.context }
{}

/// The definitions at rows of RFC 9110 and of GraphQL over HTTP: media ranges, weights, types of
/// bodies, statuses.
pub fn rows_of_the_draft()
    ensures accept { AcceptRows }
    ensures weights { WeightRows }
    ensures content { ContentRows }
    ensures statuses { StatusRows }
{}
