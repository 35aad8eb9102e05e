//! Which media type of answers a client prefers (RFC 9110, 12.5.1 Accept).

ghost use Rattle.std.specs.Prelude.{◌≡◌, codes, fold};
ghost use Rattle.http_header.specs.HeaderMap.{get_all};
ghost use Rattle.graphql_http.specs.Pieces.{pieces};
ghost use Rattle.graphql_http.specs.Accept as spec;

use crate::media::Media;
use crate::pieces::{next_piece, split_once, trim};
use crate::weights::weight_among;
use http::{HeaderMap, HeaderValue, header};
use http1::text::eq_ignore_case;

/// What media ranges say of a media type: how near the nearest one names it, and the weight that
/// it gives, in thousandths.
#[derive(Clone, Copy, Debug, PartialEq, Eq)]
pub(crate) struct Preference {
    pub(crate) nearness: u8,
    pub(crate) weight: u16,
}

impl Preference {
    /// The nearer of the two, and of two that are as near the heavier.
    fn or(self, other: Preference) -> Preference
        ensures { result ≡ spec.nearer self other }
    {
        if other.nearness > 0
            && (other.nearness > self.nearness
                || (other.nearness == self.nearness && other.weight > self.weight))
        {
            other
        } else {
            self
        }
    }
}

/// How near a media range names a media type: 3 where it is the type, 2 where it is all of
/// `application`, 1 where it is all types, else 0.
#[tactic(auto, unfolding(crate::specs::Accept::nearness_of))]
fn nearness_of(range: &[u8], kind: &[u8]) -> u8
    ensures { result ≡ spec.nearness_of range.now kind.now }
{
    if eq_ignore_case(range, kind) {
        3
    } else if eq_ignore_case(range, b"application/*") {
        2
    } else if eq_ignore_case(range, b"*/*") {
        1
    } else {
        0
    }
}

/// What an element of `Accept` says of a media type.
fn preference_of(kind: &[u8], element: &[u8]) -> Preference
    ensures { result ≡ spec.preference_of kind.now element.now }
{
    let (range, parameters) = split_once(element, b';');
    Preference {
        nearness: nearness_of(trim(range), kind),
        weight: weight_among(parameters),
    }
}

/// What a value of `Accept` says of a media type, after what others said.
fn preference_after(kind: &[u8], said: Preference, value: &[u8]) -> Preference
    ensures { result ≡ fold (spec.preference_after kind.now) said (pieces 44 value.now) }
{
    let mut preference = said;
    let mut rest = value;
    'elements: while let Some((element, others)) = next_piece(rest, b',') {
        preference = preference.or(preference_of(kind, element));
        rest = others;
    }
    preference
}

/// What the fields of a request say of a media type.
fn preference_in(kind: &[u8], headers: &HeaderMap<HeaderValue>) -> Preference
    ensures { result ≡ spec.preference_in kind.now (get_all headers.now (codes "accept")) }
{
    let mut preference = Preference {
        nearness: 0,
        weight: 0,
    };
    for value in headers.get_all(header::ACCEPT) {
        preference = preference_after(kind, preference, value.as_bytes());
    }
    preference
}

/// The media type that is preferred, if one is accepted: the one with the greater weight; of equal
/// weights `application/graphql-response+json` where a range is that type, else
/// `application/json`.
#[tactic(auto, unfolding(crate::specs::Accept::preferred))]
fn preferred(response: Preference, json: Preference) -> Option<Media>
    ensures { result ≡ spec.preferred response json }
{
    if response.weight > json.weight
        || (response.nearness == 3 && (response.weight > 0 && response.weight == json.weight))
    {
        Some(Media::Response)
    } else if json.weight > 0 {
        Some(Media::Json)
    } else {
        None
    }
}

/// The media type of an answer to a request with these fields, if it accepts one:
/// `application/json` where it has no `Accept`.
pub(crate) fn accepted(headers: &HeaderMap<HeaderValue>) -> Option<Media>
    ensures { result ≡ spec.accepted (get_all headers.now (codes "accept")) }
{
    match headers.get(header::ACCEPT) {
        None => Some(Media::Json),
        Some(_) => preferred(
            preference_in(b"application/graphql-response+json", headers),
            preference_in(b"application/json", headers),
        ),
    }
}
