ghost use Rattle.std.specs.Prelude.{◌≡◌, ◌≤◌, length, drop, take, not, IfSome, ◌+◌};
ghost use Rattle.std.specs.List.{prefix_len};
ghost use Rattle.conf_scan.specs.Shapes.{is_newline, IsGap};
ghost use Rattle.conf_scan.specs.Fronts.{close_len, separator_len};
ghost use Rattle.conf_scan.specs.Lex.{HasNoSeparator};

use crate::scan::{begins_with, tail};

fn line_len(text: &[u8]) -> usize
    ensures len { result ≡ prefix_len (λ b. not (is_newline b)) text.now }
    ensures within { result ≤ length text.now }
{
    text.iter().take_while(|byte| **byte != b'\n').count()
}

/// How many bytes there are up to the end of the first `*/`.
fn close_len(text: &[u8]) -> Option<usize>
    ensures len { result ≡ close_len text.now }
    ensures within { IfSome result (λ n. n ≤ length text.now + 1) }
{
    for (place, byte) in text.iter().enumerate() {
        if *byte == b'*' && begins_with(tail(text, place + 1), b'/') {
            return Some(place + 2);
        }
    }
    None
}

/// How long the separator at the front is.
fn separator_len(text: &[u8]) -> Option<usize>
    ensures { result ≡ separator_len text.now }
{
    let (first, behind) = text.split_first()?;
    match *first {
        b' ' | b'\t' | b'\r' | b'\n' => Some(1),
        b'#' => Some(line_len(behind) + 1),
        b'/' if begins_with(behind, b'*') => Some(close_len(tail(behind, 1))? + 2),
        _ => None,
    }
}

/// How long the gap at the front is.
pub fn gap_len(text: &[u8]) -> usize
    ensures gap { IsGap (take result text.now) (drop result text.now) }
    ensures end { HasNoSeparator (drop result text.now) }
    ensures within { result ≤ length text.now }
{
    let mut len = 0;
    while let Some(more) = separator_len(tail(text, len)) {
        len += more;
    }
    len
}
