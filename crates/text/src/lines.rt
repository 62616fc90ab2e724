//! Lines, ended by a newline.
ghost use Rattle.std.specs.Prelude.{◌≡◌, ◌<◌, ◌≤◌, [], ◌∷◌, length, MatchOption, ⊤};
ghost use Rattle.std.specs.List.{prefix_len};
ghost use Rattle.text.specs.Lines.{lines_of};
ghost use Rattle.text.specs.Cut.{is_line_byte, without_return};

/// The first line of a text and what follows it, and none of an empty text.
///
/// The line is without its newline and without a return directly before that. The last line may do
/// without a newline; a return at its end is then part of it.
pub fn cut_line(rest: &[u8]) -> Option<(&[u8], &[u8])>
    ensures line { MatchOption result
        (rest.now ≡ [])
        (λ cut. lines_of rest.now ≡ cut.0.now ∷ lines_of cut.1.now) }
    ensures shorter { MatchOption result ⊤ (λ cut. length cut.1.now < length rest.now) }
{
    if rest.is_empty() {
        return None;
    }
    let (line, behind) = rest.split_at(line_len(rest));
    match behind.split_first() {
        Some((_, after)) => Some((without_return(line), after)),
        None => Some((line, behind)),
    }
}

fn line_len(text: &[u8]) -> usize
    ensures len { result ≡ prefix_len is_line_byte text.now }
    ensures bound { result ≤ length text.now }
{
    text.iter().take_while(|byte| **byte != b'\n').count()
}

fn without_return(line: &[u8]) -> &[u8]
    ensures { result.now ≡ without_return line.now }
{
    match line.split_last() {
        Some((last, front)) if *last == b'\r' => front,
        Some(_) => line,
        None => line,
    }
}
