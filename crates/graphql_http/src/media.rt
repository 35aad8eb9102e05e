//! The media types of answers, and their statuses (GraphQL over HTTP, Responses).

ghost use Rattle.std.specs.Prelude.{◌≡◌, if◌then◌else◌};
ghost use Rattle.http_header.specs.FieldValue.{plain_value};
ghost use Rattle.graphql_http.specs.Media as spec;

use http::{HeaderValue, StatusCode};

/// The media type of an answer.
#[derive(Clone, Copy, Debug, PartialEq, Eq)]
pub enum Media {
    /// `application/graphql-response+json`, whose status tells whether there are data.
    Response,

    /// `application/json`, whose status is 200 for each request that is well formed.
    Json,
}

/// The answer to a line that is no request.
pub const NO_REQUEST: &[u8] = b"{\"errors\":[{\"message\":\"Line is not a request\"}]}\n";

/// How an answer with data begins.
pub const HAS_DATA: &[u8] = b"{\"data\"";

impl Media {
    /// The value of `Content-Type`.
    pub fn content_type(self) -> HeaderValue
        ensures { result ≡ plain_value (spec.content_type self) }
    {
        match self {
            Media::Response => {
                HeaderValue::from_static("application/graphql-response+json; charset=utf-8")
            }
            Media::Json => HeaderValue::from_static("application/json; charset=utf-8"),
        }
    }

    /// Whether an answer is that of a request that is refused: for `application/json` of one that
    /// is not well formed.
    fn refuses(self, answer: &[u8]) -> bool
        ensures { spec.status_of self answer.now ≡ (if result then 400 else 200) }
    {
        match self {
            Media::Response => !has_data(answer),
            Media::Json => is_no_request(answer),
        }
    }

    /// The status of an answer: 413 where its line is too long, else 200, or 400 where the request
    /// is refused.
    pub fn status(self, too_long: bool, answer: &[u8]) -> StatusCode
        ensures { result ≡ spec.status self too_long answer.now }
    {
        if too_long {
            StatusCode::PAYLOAD_TOO_LARGE
        } else if self.refuses(answer) {
            StatusCode::BAD_REQUEST
        } else {
            StatusCode::OK
        }
    }
}

/// Whether an answer begins with data.
fn has_data(answer: &[u8]) -> bool
    ensures { result ≡ spec.has_data answer.now }
{
    answer.starts_with(HAS_DATA)
}

/// Whether an answer is that of what is no request.
fn is_no_request(answer: &[u8]) -> bool
    ensures { result ≡ spec.is_no_request answer.now }
{
    answer == NO_REQUEST
}
