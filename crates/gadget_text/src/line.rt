//! A line: its kind, and the part of it that counts.

ghost use Rattle.std.specs.Prelude.{◌≡◌, ◌+◌, ◌≤◌, drop, length};
ghost use Rattle.std.specs.List.{prefix_len, position_or_len};
ghost use Rattle.gadget_text.specs.Bytes.{is_blank, is_hash};
ghost use Rattle.gadget_text.specs.Lines.{line_kind, kept_part, before_hash, without_return};

use crate::byte::is_blank;
use crate::header::header_behind;
use crate::line_kind::LineKind;

/// A line without a carriage return that is its last byte.
#[tactic(auto, using(crate::proofs::Returns::return_dropped, crate::proofs::Returns::return_stays))]
pub(crate) fn without_return(line: &[u8]) -> &[u8]
    ensures line { result.now ≡ without_return line.now }
    ensures shorter { length result.now ≤ length line.now }
{
    if line.is_empty() {
        return line;
    }
    let last = line.len() - 1;
    if line[last] == b'\r' {
        return &line[..last];
    }
    line
}

/// How many blanks stand in front.
pub(crate) fn indent(line: &[u8]) -> usize
    ensures indent { result ≡ prefix_len is_blank line.now }
    ensures within { result ≤ length line.now }
{
    for (i, b) in line.iter().enumerate() {
        if !is_blank(*b) {
            return i;
        }
    }
    line.len()
}

// The kind of a line that does not begin with a blank.
fn solid_kind(line: &[u8]) -> LineKind
    requires { prefix_len is_blank line.now ≡ 0 }
    ensures { result ≡ line_kind line.now }
{
    if line.is_empty() {
        return LineKind::Blank;
    }
    if line[0] != b'#' {
        return LineKind::Assignment;
    }
    match header_behind(&line[1..]) {
        None => LineKind::Comment,
        Some(header) => LineKind::HeaderLine(header),
    }
}

// The line from its first byte that is no blank.
fn unindented(line: &[u8]) -> &[u8]
    ensures { result.now ≡ drop (prefix_len is_blank line.now) line.now }
{
    let front = indent(line);
    &line[front..]
}

/// The kind of a line.
#[tactic(auto, using(crate::proofs::Blanks::kind_behind, crate::proofs::Blanks::blanks_behind))]
pub(crate) fn line_kind(line: &[u8]) -> LineKind
    ensures { result ≡ line_kind line.now }
{
    solid_kind(unindented(line))
}

// The index of the next `#`, from an index on, or of the end.
fn next_hash(line: &[u8], from: usize) -> usize
    requires { from ≤ length line.now }
    ensures next { result ≡ from + position_or_len is_hash (drop from line.now) }
    ensures within { result ≤ length line.now }
{
    for i in from..line.len() {
        if line[i] == b'#' {
            return i;
        }
    }
    line.len()
}

/// The kept part of a line.
#[tactic(auto, using(crate::proofs::Kept::kept_whole, crate::proofs::Kept::kept_before))]
pub(crate) fn kept_part(line: &[u8]) -> &[u8]
    ensures kept { result.now ≡ kept_part line.now }
    ensures shorter { length result.now ≤ length line.now }
{
    let front = indent(line);
    if front == line.len() {
        return line;
    }
    let end = next_hash(line, front + 1);
    &line[..end]
}
