//! What is asked of every request, whatever its target is.

use crate::facts::Facts;
use crate::reply::Reply;
use bytes::Bytes;
use http::header::HOST;
use http::{Request, StatusCode};
use std::alloc::Global;
use web_target::admits_host;

// The host that a request is for: that of its target, or else of its field. A request of HTTP/1.0
// may have none.
fn host_of(request: &Request<Bytes>) -> Option<&[u8]> {
    match request.uri().authority() {
        Some(authority) => Some(authority.as_str().as_bytes()),
        None => match request.headers().get(HOST) {
            Some(value) => Some(value.as_bytes()),
            None => None,
        },
    }
}

// What is answered to a host that isn't the collector's; none where it is.
fn host_refused(alloc: Global, hosts: &[String], host: &[u8]) -> Option<Reply> {
    match admits_host(alloc, hosts, host) {
        Ok(true) => None,
        Ok(false) => Some(Reply::plain(
            StatusCode::MISDIRECTED_REQUEST,
            "not a name of this collector\n",
        )),
        Err(_) => Some(Reply::no_memory()),
    }
}

/// What is answered to a request whatever its target is: that it is for another host than the
/// collector with these names, or that its method isn't GET or HEAD. None where neither is so.
pub fn refused_early(alloc: Global, hosts: &[String], request: &Request<Bytes>) -> Option<Reply> {
    if let Some(host) = host_of(request)
        && let Some(reply) = host_refused(alloc, hosts, host)
    {
        return Some(reply);
    }
    let method = request.method().as_str();
    if method != "GET" && method != "HEAD" {
        return Some(Reply::plain(StatusCode::METHOD_NOT_ALLOWED, "only GET and HEAD\n"));
    }
    None
}

/// The query of a request's target, if it has one.
pub fn query_of(request: &Request<Bytes>) -> Option<&[u8]> {
    match request.uri().query() {
        None => None,
        Some(query) => Some(query.as_bytes()),
    }
}

/// What is answered to who asks whether the collector works.
pub fn health<F: Facts>(facts: &F) -> Reply {
    if facts.is_well() {
        Reply::plain(StatusCode::OK, "ok\n")
    } else {
        Reply::plain(StatusCode::SERVICE_UNAVAILABLE, "the clock stands still\n")
    }
}
