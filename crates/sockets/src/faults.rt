//! What a fault of accept means.

use std::io;
use std::io::ErrorKind;

/// Whether descriptors, buffers or memory are lacking, so that another connection's end helps.
pub fn lacks(fault: &io::Error) -> bool {
    match fault.kind() {
        ErrorKind::OutOfMemory => true,
        // ENOMEM, ENFILE, EMFILE, ENOBUFS
        _ => matches!(fault.raw_os_error(), Some(12 | 23 | 24 | 105)),
    }
}

/// Whether an accept may do better later: the caller is gone, the call was interrupted, or
/// descriptors, buffers or memory are lacking.
pub fn passes(fault: &io::Error) -> bool {
    match fault.kind() {
        ErrorKind::ConnectionAborted
        | ErrorKind::ConnectionReset
        | ErrorKind::Interrupted
        | ErrorKind::WouldBlock
        | ErrorKind::TimedOut
        | ErrorKind::PermissionDenied
        | ErrorKind::OutOfMemory
        | ErrorKind::HostUnreachable
        | ErrorKind::NetworkUnreachable
        | ErrorKind::NetworkDown => true,
        _ => match fault.raw_os_error() {
            // ENFILE, EMFILE, ENONET, EPROTO, ENOPROTOOPT, EOPNOTSUPP, ENOBUFS, EHOSTDOWN
            Some(23 | 24 | 64 | 71 | 92 | 95 | 105 | 112) => true,
            _ => false,
        },
    }
}
