//! What is answered.

use bytes::Bytes;
use http::StatusCode;
use http::header::{
    ALLOW, CACHE_CONTROL, CONTENT_SECURITY_POLICY, CONTENT_TYPE, HeaderValue, RETRY_AFTER,
    X_CONTENT_TYPE_OPTIONS,
};
use http_server::Response;
use std::alloc::AllocError;

/// What kind of text a body is.
#[derive(Clone, Copy, Debug, PartialEq, Eq)]
pub enum Kind {
    Page,
    Figures,
    Json,
    Plain,
}

impl Kind {
    fn value(self) -> HeaderValue {
        match self {
            Kind::Page => HeaderValue::from_static("text/html; charset=utf-8"),
            Kind::Figures => {
                HeaderValue::from_static("text/plain; version=0.0.4; charset=utf-8")
            }
            Kind::Json => HeaderValue::from_static("application/json"),
            Kind::Plain => HeaderValue::from_static("text/plain; charset=utf-8"),
        }
    }
}

/// An answer.
#[derive(Debug, Drop)]
pub struct Reply {
    pub status: StatusCode,
    pub kind: Kind,
    pub body: Bytes,
}

// What the page may do: nothing but run its own script and ask this collector.
fn policy() -> HeaderValue {
    HeaderValue::from_static(
        "default-src 'none'; style-src 'unsafe-inline'; script-src 'unsafe-inline'; \
         connect-src 'self'; img-src data:; base-uri 'none'; form-action 'none'; \
         frame-ancestors 'none'",
    )
}

impl Reply {
    /// A short text.
    pub fn plain(status: StatusCode, text: &'static str) -> Reply {
        Reply {
            status,
            kind: Kind::Plain,
            body: Bytes::from_static(text.as_bytes()),
        }
    }

    /// What is answered where the door is too busy.
    pub fn busy() -> Reply {
        Reply::plain(StatusCode::SERVICE_UNAVAILABLE, "too busy\n")
    }

    /// What is answered where an allocation failed.
    pub fn no_memory() -> Reply {
        Reply::plain(StatusCode::SERVICE_UNAVAILABLE, "out of memory\n")
    }

    /// Fills a response. Where an allocation fails it says so by its status, and nothing else.
    pub fn send(self, response: &mut Response) {
        if self.fill(response).is_err() {
            response.clear();
            response.status = StatusCode::SERVICE_UNAVAILABLE;
        }
    }

    // Fills a response. Where an allocation failed it may be half filled.
    fn fill(self, response: &mut Response) -> Result<(), AllocError> {
        let Reply { status, kind, body } = self;
        response.status = status;
        response.add_header(CONTENT_TYPE, kind.value())?;
        response.add_header(CACHE_CONTROL, HeaderValue::from_static("no-store"))?;
        response.add_header(X_CONTENT_TYPE_OPTIONS, HeaderValue::from_static("nosniff"))?;
        if kind == Kind::Page {
            response.add_header(CONTENT_SECURITY_POLICY, policy())?;
        }
        if status == StatusCode::METHOD_NOT_ALLOWED {
            response.add_header(ALLOW, HeaderValue::from_static("GET, HEAD"))?;
        }
        if status == StatusCode::SERVICE_UNAVAILABLE {
            response.add_header(RETRY_AFTER, HeaderValue::from_static("1"))?;
        }
        response.body.push(body)
    }
}
