//! The weights of media ranges (RFC 9110, 12.4.2 Quality Values).

ghost use Rattle.std.specs.Prelude.{◌≡◌, ◌≤◌};
ghost use Rattle.graphql_http.specs.Pieces.{pieces};
ghost use Rattle.graphql_http.specs.Weights as spec;

use crate::pieces::{next_piece, split_once, trim};
use http1::text::eq_ignore_case;

/// A digit's value; 0 for what is none.
fn digit(byte: u8) -> u16
    ensures value { result ≡ spec.digit byte }
    ensures bound { result ≤ 9 }
{
    if byte.is_ascii_digit() {
        u16::from(byte - b'0')
    } else {
        0
    }
}

/// The weight that a text tells, in thousandths: 1000 where it does not begin with zero.
#[tactic(auto, unfolding(crate::specs::Weights::weight_of))]
fn weight_of(text: &[u8]) -> u16
    ensures value { result ≡ spec.weight_of text.now }
    ensures bound { result ≤ 1000 }
{
    if text.is_empty() || text[0] != b'0' {
        return 1000;
    }
    let mut weight = 0u16;
    if text.len() > 2 {
        weight += digit(text[2]) * 100;
    }
    if text.len() > 3 {
        weight += digit(text[3]) * 10;
    }
    if text.len() > 4 {
        weight += digit(text[4]);
    }
    weight
}

/// The weight that a parameter tells; none where it is not named `q`.
fn weight_told(parameter: &[u8]) -> Option<u16>
    ensures { result ≡ spec.weight_told parameter.now }
{
    let (name, value) = split_once(parameter, b'=');
    if eq_ignore_case(trim(name), b"q") {
        Some(weight_of(trim(value)))
    } else {
        None
    }
}

/// The weight that the parameters of a media range tell: 1000 where none of them does.
pub(crate) fn weight_among(parameters: &[u8]) -> u16
    ensures { result ≡ spec.weight_among (pieces 59 parameters.now) }
{
    let mut rest = parameters;
    'parameters: while let Some((parameter, others)) = next_piece(rest, b';') {
        if let Some(weight) = weight_told(parameter) {
            return weight;
        }
        rest = others;
    }
    1000
}
