ghost use Rattle.std.specs.Prelude.{◌≡◌};
ghost use Rattle.line_words.specs.Operators.{operator_of, operator_word};

use agg_types::Op;

/// The comparison that a word names (Management Guide, "show table"), or none: `eq`, `ne`, `le`,
/// `ge`, `lt` or `gt`, in small letters.
pub fn operator(word: &[u8]) -> Option<Op>
    ensures { result ≡ operator_of word.now }
{
    match word {
        b"eq" => Some(Op::Eq),
        b"ne" => Some(Op::Ne),
        b"le" => Some(Op::Le),
        b"ge" => Some(Op::Ge),
        b"lt" => Some(Op::Lt),
        b"gt" => Some(Op::Gt),
        _ => None,
    }
}

/// The word for a comparison, in small letters.
pub fn operator_word(op: Op) -> &'static [u8]
    ensures { result.now ≡ operator_word op }
{
    match op {
        Op::Eq => b"eq",
        Op::Ne => b"ne",
        Op::Le => b"le",
        Op::Ge => b"ge",
        Op::Lt => b"lt",
        Op::Gt => b"gt",
    }
}
