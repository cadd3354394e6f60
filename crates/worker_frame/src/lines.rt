//! The lines of a piece.

ghost use Rattle.std.specs.Prelude.{◌≡◌, ◌<◌, ◌++◌, ◌∷◌, length, IfSome, IfNone};
ghost use Rattle.worker_frame.specs.Lines.{HasNoEnd};

use line_words::place_of;

/// The bytes before the first LF and those behind it, if there is one.
#[tactic(auto, using(crate::proofs::Pieces::parting))]
pub fn split_line(piece: &[u8]) -> Option<(&[u8], &[u8])>
    ensures whole { IfNone result (HasNoEnd piece.now) }
    ensures line { IfSome result (λ parts. HasNoEnd parts.0.now) }
    ensures parts { IfSome result (λ parts. piece.now ≡ parts.0.now ++ 10 ∷ parts.1.now) }
    ensures shorter { IfSome result (λ parts. length parts.1.now < length piece.now) }
{
    let end = place_of(piece, b'\n')?;
    Some((&piece[..end], &piece[end + 1..]))
}
