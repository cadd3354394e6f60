//! What peers send, by docs/PROTOCOL.md.

/// The hello of the peer `lb1`.
pub const HELLO: &[u8] = b"HAProxyS 2.1\nagg\nlb1 1 1\n";

/// The hello of the peer `lb2`.
pub const OTHER_HELLO: &[u8] = b"HAProxyS 2.1\nagg\nlb2 1 1\n";

/// An incremental update: 10.0.0.1 has 6.
pub const SIX: &[u8] = b"\x0a\x81\x05\x0a\x00\x00\x01\x06";

/// An incremental update: 10.0.0.1 has 2.
pub const TWO: &[u8] = b"\x0a\x81\x05\x0a\x00\x00\x01\x02";

/// The definition, and the first update behind it.
pub const DEFINE_FIVE: &[u8] =
    b"\x0a\x82\x07\x01\x01t\x04\x04\x04\x00\x0a\x80\x09\x00\x00\x00\x01\x0a\x00\x00\x01\x05";

/// The definition, and an update that brings 10.0.0.1 to 6.
pub const DEFINE_SIX: &[u8] =
    b"\x0a\x82\x07\x01\x01t\x04\x04\x04\x00\x0a\x80\x09\x00\x00\x00\x01\x0a\x00\x00\x01\x06";

/// The definition, and an update with the id 9 behind it: 10.0.0.1 has 7.
pub const DEFINE_SEVEN: &[u8] =
    b"\x0a\x82\x07\x01\x01t\x04\x04\x04\x00\x0a\x80\x09\x00\x00\x00\x09\x0a\x00\x00\x01\x07";

/// All of `lb1` in one piece: its hello, the definition and two updates.
pub const AT_ONCE: &[u8] = b"HAProxyS 2.1\nagg\nlb1 1 1\n\
    \x0a\x82\x07\x01\x01t\x04\x04\x04\x00\
    \x0a\x80\x09\x00\x00\x00\x01\x0a\x00\x00\x01\x05\
    \x0a\x81\x05\x0a\x00\x00\x01\x06";

/// A resync request, and its end.
pub const RESYNC: &[u8] = b"\x00\x00\x00\x01";

/// The end of a resync, of which all was sent.
pub const FINISHED: &[u8] = b"\x00\x01";

/// The end of a resync, of which not all was sent.
pub const PARTIAL: &[u8] = b"\x00\x02";

/// The peer is there.
pub const BEAT: &[u8] = b"\x00\x04";

/// An update whose length is 240 + 242 * 16 + 7 * 2048, above 16,384.
pub const TOO_LONG: &[u8] = b"\x0a\x80\xf0\xf2\x07";

/// A definition without a byte of payload.
pub const NO_FIELD: &[u8] = b"\x0a\x82\x00";

/// The peer reports an error of the protocol.
pub const ERROR: &[u8] = b"\x01\x00";

/// What an admin asks for in one piece: the table's rows, and those above 10.
pub const QUESTIONS: &[u8] = b"show table t\nshow table t data.gpc0 gt 10\n";
