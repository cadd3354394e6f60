//! Lines of HTTP at the admins' door.

ghost use Rattle.std.specs.Prelude.{◌≡◌, ◌↔◌, IsTrue};
ghost use Rattle.sockets.specs.HttpLines.{IsHttp, IsNamed, is_request};

/// Whether a line is HTTP's: it begins with a method and a space, exactly so, or with `Host:` or
/// `Origin:` in any case. No line with spaces before these is.
pub fn begins_as_http(line: &[u8]) -> bool
    ensures { IsTrue result ↔ IsHttp line.now }
{
    is_request(line) || is_named(line, b"host:") || is_named(line, b"origin:")
}

// Whether a line begins with a method and a space.
fn is_request(line: &[u8]) -> bool
    ensures { result ≡ is_request line.now }
{
    line.starts_with(b"GET ")
        || line.starts_with(b"HEAD ")
        || line.starts_with(b"POST ")
        || line.starts_with(b"PUT ")
        || line.starts_with(b"DELETE ")
        || line.starts_with(b"OPTIONS ")
        || line.starts_with(b"PATCH ")
        || line.starts_with(b"CONNECT ")
        || line.starts_with(b"TRACE ")
}

// Whether a line begins with these bytes, in any case.
fn is_named(line: &[u8], name: &[u8]) -> bool
    ensures { IsTrue result ↔ IsNamed name.now line.now }
{
    match line.get(..name.len()) {
        None => false,
        Some(head) => head.eq_ignore_ascii_case(name),
    }
}
