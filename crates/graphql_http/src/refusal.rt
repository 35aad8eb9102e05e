//! Why a request of HTTP is not asked.

ghost use Rattle.std.specs.Prelude.{◌≡◌, option_map};
ghost use Rattle.graphql_http.specs.Refusals as spec;

use http::{HeaderValue, StatusCode};

/// Why a request of HTTP is not asked.
#[derive(Clone, Copy, Debug, PartialEq, Eq)]
pub enum HttpRefusal {
    /// Nothing is at the path.
    UnknownPath,
    /// What is at the path is only read.
    OnlyRead,
    /// Requests are not asked by this method.
    UnknownMethod,
    /// A mutation is asked for by GET.
    MutationByGet,
    /// The request accepts no media type of answers.
    NotAcceptable,
    /// The body is not `application/json` in UTF-8.
    NotJson,
    /// The target's query has no parameter `query`.
    NoQuery,
    /// The parameter `variables` is no JSON.
    BadVariables,
    /// The parameter `extensions` is no JSON.
    BadExtensions,
}

impl HttpRefusal {
    /// The status.
    pub fn status(self) -> StatusCode
        ensures { result ≡ spec.status self }
    {
        match self {
            HttpRefusal::UnknownPath => StatusCode::NOT_FOUND,
            HttpRefusal::OnlyRead | HttpRefusal::UnknownMethod | HttpRefusal::MutationByGet => {
                StatusCode::METHOD_NOT_ALLOWED
            }
            HttpRefusal::NotAcceptable => StatusCode::NOT_ACCEPTABLE,
            HttpRefusal::NotJson => StatusCode::UNSUPPORTED_MEDIA_TYPE,
            HttpRefusal::NoQuery | HttpRefusal::BadVariables | HttpRefusal::BadExtensions => {
                StatusCode::BAD_REQUEST
            }
        }
    }

    /// The body: the JSON of a response that has errors alone.
    pub fn text(self) -> &'static str
        ensures { result.now ≡ spec.text self }
    {
        match self {
            HttpRefusal::UnknownPath => {
                "{\"errors\":[{\"message\":\"There is nothing at this path\"}]}\n"
            }
            HttpRefusal::OnlyRead => {
                "{\"errors\":[{\"message\":\"This path takes GET and HEAD\"}]}\n"
            }
            HttpRefusal::UnknownMethod => {
                "{\"errors\":[{\"message\":\"Requests are asked by POST or GET\"}]}\n"
            }
            HttpRefusal::MutationByGet => {
                "{\"errors\":[{\"message\":\"A mutation is asked by POST\"}]}\n"
            }
            HttpRefusal::NotAcceptable => {
                "{\"errors\":[{\"message\":\"No media type of answers is accepted\"}]}\n"
            }
            HttpRefusal::NotJson => {
                "{\"errors\":[{\"message\":\"The body is not application/json in UTF-8\"}]}\n"
            }
            HttpRefusal::NoQuery => {
                "{\"errors\":[{\"message\":\"The parameter query is missing\"}]}\n"
            }
            HttpRefusal::BadVariables => {
                "{\"errors\":[{\"message\":\"The parameter variables is not JSON\"}]}\n"
            }
            HttpRefusal::BadExtensions => {
                "{\"errors\":[{\"message\":\"The parameter extensions is not JSON\"}]}\n"
            }
        }
    }

    /// The value of `Allow`, which comes with a 405 (RFC 9110, 15.5.6).
    pub fn allow(self) -> Option<HeaderValue>
        ensures { option_map (λ value. value.bytes) result ≡ spec.allow self }
    {
        match self {
            HttpRefusal::OnlyRead => Some(HeaderValue::from_static("GET, HEAD")),
            HttpRefusal::UnknownMethod => {
                Some(HeaderValue::from_static("GET, HEAD, OPTIONS, POST"))
            }
            HttpRefusal::MutationByGet => Some(HeaderValue::from_static("POST")),
            HttpRefusal::UnknownPath
            | HttpRefusal::NotAcceptable
            | HttpRefusal::NotJson
            | HttpRefusal::NoQuery
            | HttpRefusal::BadVariables
            | HttpRefusal::BadExtensions => None,
        }
    }
}
