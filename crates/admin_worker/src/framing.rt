//! Where a command ends.

ghost use Rattle.std.specs.Prelude.{◌≡◌, ◌<◌, ◌++◌, ◌∷◌, length, true, IfSome, IfNone};
ghost use Rattle.std.specs.List.{position};
ghost use Rattle.admin_worker.specs.Framing.{HasNoEnd, is_end};

/// The bytes before the first end of a command, that end, and the bytes behind it, if there is one.
#[tactic(auto, using(crate::proofs::Framed::parting))]
pub(crate) fn split_command(piece: &[u8]) -> Option<(&[u8], u8, &[u8])>
    ensures whole { IfNone result (HasNoEnd piece.now) }
    ensures command { IfSome result (λ parts. HasNoEnd parts.0.now) }
    ensures ends { IfSome result (λ parts. is_end parts.1 ≡ true) }
    ensures parts { IfSome result (λ parts. piece.now ≡ parts.0.now ++ parts.1 ∷ parts.2.now) }
    ensures shorter { IfSome result (λ parts. length parts.2.now < length piece.now) }
{
    let at = end_in(piece)?;
    Some((&piece[..at], piece[at], &piece[at + 1..]))
}

// Where the first end of a command stands.
fn end_in(piece: &[u8]) -> Option<usize>
    ensures first { result ≡ position is_end piece.now }
    ensures within { IfSome result (λ at. at < length piece.now) }
{
    piece.iter().position(|byte| is_end(*byte))
}

fn is_end(byte: u8) -> bool
    ensures { result ≡ is_end byte }
{
    byte == b'\n' || byte == b';'
}
