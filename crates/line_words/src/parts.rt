ghost use Rattle.std.specs.Prelude.{◌≡◌, ◌+◌, ◌≢◌, ◌<◌, ◌≤◌, ◌==◌, length, position, drop};
ghost use Rattle.std.specs.Prelude.{slice_index, IfSome, IfNone};
ghost use Rattle.std.specs.Option.{option_copied};
ghost use Rattle.std.specs.Str.Lines.{strip_carriage_return};
ghost use Rattle.line_words.specs.Words.{BeginsParts, TakesFirst, are_comment, lines_of, words};

/// The part of a text before the first byte of this value, and the text after that byte, or none
/// where there is no such byte: the part is then the whole text.
#[tactic(auto, using(crate::proofs::Splitting::first_part))]
pub fn next_part(text: &[u8], between: u8) -> (&[u8], Option<&[u8]>)
    ensures parts { BeginsParts between text.now result.0.now (option_copied result.1) }
    ensures whole { IfNone result.1 (result.0.now ≡ text.now) }
    ensures shorter { IfSome result.1 (λ rest. length rest.now < length text.now) }
{
    match place_of(text, between) {
        None => (text, None),
        Some(end) => (&text[..end], Some(behind(text, end))),
    }
}

/// The first line of a text, without its LF and a CR before it, and the text after it; none where
/// the text is empty. A last line without LF keeps its CR.
#[tactic(auto, using(crate::proofs::Splitting::first_line))]
pub fn next_line(text: &[u8]) -> Option<(&[u8], &[u8])>
    ensures line { TakesFirst lines_of text.now result }
    ensures shorter { IfSome result (λ found. length found.1.now < length text.now) }
{
    if text.is_empty() {
        return None;
    }
    match next_part(text, b'\n') {
        (line, None) => Some((line, b"")),
        (line, Some(rest)) => Some((without_return(line), rest)),
    }
}

fn without_return(line: &[u8]) -> &[u8]
    ensures { result.now ≡ strip_carriage_return line.now }
{
    match line {
        [front @ .., b'\r'] => front,
        _ => line,
    }
}

/// The first word of a line, and what follows it; none where the line has only spaces. One or more
/// spaces separate words, and nothing else does.
#[tactic(auto, using(crate::proofs::Splitting::first_word))]
pub fn next_word(line: &[u8]) -> Option<(&[u8], &[u8])>
    ensures word { TakesFirst words line.now result }
    ensures shorter { IfSome result (λ found. length found.1.now < length line.now) }
{
    let begun = without_spaces(line);
    if begun.is_empty() {
        return None;
    }
    match place_of(begun, b' ') {
        None => Some((begun, b"")),
        Some(end) => Some((&begun[..end], behind(begun, end))),
    }
}

/// Where a byte stands first, or none where it doesn't stand.
pub fn place_of(text: &[u8], wanted: u8) -> Option<usize>
    ensures first { result ≡ position (λ byte. byte == wanted) text.now }
    ensures within { IfSome result (λ place. place < length text.now) }
{
    text.iter().position(|byte| *byte == wanted)
}

#[tactic(auto, using(crate::proofs::Splitting::words_skip))]
fn without_spaces(line: &[u8]) -> &[u8]
    ensures words { words result.now ≡ words line.now }
    ensures begins { slice_index result.now 0 ≢ 32 }
    ensures within { length result.now ≤ length line.now }
{
    for (i, byte) in line.iter().enumerate() {
        if *byte != b' ' {
            return &line[i..];
        }
    }
    b""
}

// What stands behind a byte.
fn behind(text: &[u8], at: usize) -> &[u8]
    requires { at < length text.now }
    ensures { result.now ≡ drop (at + 1) text.now }
{
    &text[at + 1..]
}

/// Whether a line says nothing: it has no word, or its first begins with `#`.
pub fn is_comment(line: &[u8]) -> bool
    ensures { result ≡ are_comment (words line.now) }
{
    match next_word(line) {
        None => true,
        Some((word, _)) => word.first() == Some(&b'#'),
    }
}
