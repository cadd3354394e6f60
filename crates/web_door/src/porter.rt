//! Who answers while clerks have no time.

use crate::checks::{health, query_of, refused_early};
use crate::facts::Facts;
use crate::reply::Reply;
use bytes::Bytes;
use http::header::{CONNECTION, HeaderValue};
use http::{Request, StatusCode};
use http_server::{Response, Service};
use std::alloc::{AllocError, Global};
use web_target::{Question, read};

/// Who answers whether the collector works, and tells whoever asks for something else that the door
/// is too busy. The connection is over then. It looks at no book.
pub struct Porter<'a, F> {
    pub alloc: Global,
    /// The names of hosts that are the collector's.
    pub hosts: &'a [String],
    pub facts: &'a F,
}

impl<'a, F> Drop for Porter<'a, F> {
    fn drop(self) {
        let Porter {
            alloc: _,
            hosts: _,
            facts: _,
        } = self;
    }
}

impl<'a, F: Facts> Porter<'a, F> {
    // What is answered to a request.
    fn reply(&self, request: &Request<Bytes>) -> Reply {
        if let Some(reply) = refused_early(self.alloc, self.hosts, request) {
            return reply;
        }
        match read(
            self.alloc,
            request.uri().path().as_bytes(),
            query_of(request),
        ) {
            Ok(Question::Health) => health(self.facts),
            _ => Reply::busy(),
        }
    }
}

impl<'a, F: Facts> Service for Porter<'a, F> {
    ghost answers = { λ old request response new. Unit {0} };

    // Where an allocation failed the answer says so, or nothing.
    fn call(
        &mut self,
        request: &Request<Bytes>,
        response: &mut Response,
    ) -> Result<(), AllocError> {
        self.reply(request).send(response);
        let close = HeaderValue::from_static("close");
        if response.add_header(CONNECTION, close).is_err() {
            response.clear();
            response.status = StatusCode::SERVICE_UNAVAILABLE;
        }
        Ok(())
    }
}
