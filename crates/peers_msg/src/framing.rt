//! Where the first message of bytes begins and ends.

ghost use Rattle.std.specs.Prelude.{◌≡◌};
ghost use Rattle.peers_msg.specs.Message.{frame_at};
ghost use Rattle.peers_msg.specs.Decoded.{IsHead, HeadFits};

use crate::WireCause;
use crate::integer::read_int;
use crate::kinds::FIRST_WITH_PAYLOAD;
use agg_types::limits::LONGEST_PAYLOAD;

/// What stands at the front of bytes.
#[derive(Clone, Copy, Debug)]
pub(crate) enum Head {
    /// Neither a whole message nor a fault.
    Short,
    /// A fault.
    Wrong(WireCause),
    /// A whole message.
    Whole {
        class: u8,
        kind: u8,
        /// Where the payload begins.
        start: usize,
        /// How many bytes the payload has.
        len: usize,
    },
}

/// The head of the first message.
#[inline]
#[tactic(auto, unfolding(crate::specs::Message::frame_at))]
pub(crate) fn head_of(bytes: &[u8]) -> Head
    ensures exact { IsHead result bytes.now (frame_at bytes.now) }
    ensures fits { HeadFits result bytes.now }
{
    match bytes {
        [class, kind, rest @ ..] => {
            if *kind < FIRST_WITH_PAYLOAD {
                return Head::Whole {
                    class: *class,
                    kind: *kind,
                    start: 2,
                    len: 0,
                };
            }
            match read_int(rest) {
                Ok(None) => Head::Short,
                Err(_) => Head::Wrong(WireCause::BadInteger),
                Ok(Some((len, taken))) => {
                    if len > LONGEST_PAYLOAD {
                        Head::Wrong(WireCause::TooLong)
                    } else if rest.len() - taken < len as usize {
                        Head::Short
                    } else {
                        Head::Whole {
                            class: *class,
                            kind: *kind,
                            start: 2 + taken,
                            len: len as usize,
                        }
                    }
                }
            }
        }
        _ => Head::Short,
    }
}
