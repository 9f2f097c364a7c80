//! The tokens of a file.

ghost use Rattle.std.specs.Prelude.{◌≡◌, ◌+◌, ◌^◌, ◌<◌, ◌≤◌, ◌++◌, [], ◌∷◌, None, true, length, drop, IfOk, IfErr, OnOk};
ghost use Rattle.std.specs.List.{position_or_len, prefix_len};
ghost use Rattle.gadget_text.specs.Bytes.{is_feed, is_blank, is_in_word};
ghost use Rattle.gadget_text.specs.Limits.{most_file_bytes};
ghost use Rattle.gadget_text.specs.Lines.{header_word, lines_of, line_kind, kept_part, is_text, first_not_text};
ghost use Rattle.gadget_text.specs.Segments.{segments, header_segments, line_segments};
ghost use Rattle.gadget_text.specs.Places.{placed, tokens_of, NamesLine};

use crate::byte::{are_allowed, is_blank, is_in_word, sign_kind};
use crate::header::header_word;
use crate::line::{indent, kept_part, line_kind, without_return};
use crate::line_kind::LineKind;
use crate::token::{Header, TextError, Token, TokenKind};
use crate::words::Words;
use std::alloc::{AllocError, Global};

/// A file has at most this many bytes, a mebibyte.
pub const MOST_FILE_BYTES: usize = 1_048_576;

// How many bytes from the front on stand in words.
fn word_len(words: Words, bytes: &[u8]) -> usize
    ensures len { result ≡ prefix_len (is_in_word words) bytes.now }
    ensures within { result ≤ length bytes.now }
{
    for (i, b) in bytes.iter().enumerate() {
        if !is_in_word(words, *b) {
            return i;
        }
    }
    bytes.len()
}

// Adds the token that the bytes begin with, unless that is a blank, and gives how many bytes it has.
fn add_segment(
    tokens: &mut Vec<Token>,
    words: Words,
    line: u32,
    at: u32,
    bytes: &[u8],
) -> Result<usize, AllocError>
    requires some { 0 < length bytes.now }
    requires fits { at + length bytes.now < 2 ^ 32 }
    ensures tokens { IfOk result (λ n.
        tokens.new.items ++ placed line (at + n) (segments words (drop n bytes.now))
        ≡ tokens.old.items ++ placed line at (segments words bytes.now)) }
    ensures some { IfOk result (λ n. 0 < n) }
    ensures within { IfOk result (λ n. n ≤ length bytes.now) }
{
    let len = word_len(words, bytes);
    if 0 < len {
        tokens.push(Token {
            kind: TokenKind::Word,
            from: at,
            to: at + len as u32,
            line,
        })?;
        return Ok(len);
    }
    if is_blank(bytes[0]) {
        return Ok(1);
    }
    tokens.push(Token {
        kind: sign_kind(bytes[0]),
        from: at,
        to: at + 1,
        line,
    })?;
    Ok(1)
}

// Adds the tokens of a part of a line, which stands at a place of the file.
fn add_segments(
    tokens: &mut Vec<Token>,
    words: Words,
    line: u32,
    from: u32,
    bytes: &[u8],
) -> Result<(), AllocError>
    requires { from + length bytes.now < 2 ^ 32 }
    ensures { OnOk result (tokens.new.items ≡ tokens.old.items ++ placed line from (segments words bytes.now)) }
{
    let mut at = from;
    let mut rest = bytes;
    while !rest.is_empty() {
        let len = add_segment(tokens, words, line, at, rest)?;
        at += len as u32;
        rest = &rest[len..];
    }
    Ok(())
}

// Adds the tokens of the kept part of a header line.
fn add_header(
    tokens: &mut Vec<Token>,
    header: Header,
    line: u32,
    from: u32,
    kept: &[u8],
) -> Result<(), AllocError>
    requires room { prefix_len is_blank kept.now + 1 + length (header_word header) ≤ length kept.now }
    requires fits { from + length kept.now < 2 ^ 32 }
    ensures { OnOk result (tokens.new.items ≡ tokens.old.items ++ placed line from (header_segments header kept.now)) }
{
    let front = indent(kept);
    let end = front + 1 + header_word(header).len();
    tokens.push(Token {
        kind: TokenKind::Head(header),
        from: from + front as u32,
        to: from + end as u32,
        line,
    })?;
    add_segments(tokens, Words::Solid, line, from + end as u32, &kept[end..])
}

// Adds the tokens of a line without forbidden bytes.
fn add_text(tokens: &mut Vec<Token>, number: u32, from: u32, line: &[u8]) -> Result<(), AllocError>
    requires { from + length line.now < 2 ^ 32 }
    ensures { OnOk result (tokens.new.items ≡ tokens.old.items ++ placed number from (line_segments line.now)) }
{
    let kept = kept_part(line);
    match line_kind(line) {
        LineKind::Blank | LineKind::Comment => Ok(()),
        LineKind::HeaderLine(header) => add_header(tokens, header, number, from, kept),
        LineKind::Assignment => add_segments(tokens, Words::Named, number, from, kept),
    }
}

// Whether no byte of a line that counts is forbidden.
fn is_text(line: &[u8]) -> bool
    ensures { result ≡ is_text line.now }
{
    match line_kind(line) {
        LineKind::Blank | LineKind::Comment => true,
        LineKind::HeaderLine(_) | LineKind::Assignment => are_allowed(kept_part(line)),
    }
}

// Adds the tokens of a line, unless it has a forbidden byte that counts.
fn add_line(tokens: &mut Vec<Token>, number: u32, from: u32, line: &[u8]) -> Result<(), TextError>
    requires { from + length line.now < 2 ^ 32 }
    ensures tokens { OnOk result (tokens.new.items ≡ tokens.old.items ++ placed number from (line_segments line.now)) }
    ensures text { OnOk result (is_text line.now ≡ true) }
    ensures not_text { IfErr result (NamesLine (first_not_text number (line.now ∷ []))) }
{
    if !is_text(line) {
        return Err(TextError::NotText(number));
    }
    add_text(tokens, number, from, line)?;
    Ok(())
}

// How many bytes stand before the next line feed.
fn line_len(bytes: &[u8]) -> usize
    ensures len { result ≡ position_or_len is_feed bytes.now }
    ensures within { result ≤ length bytes.now }
{
    for (i, b) in bytes.iter().enumerate() {
        if *b == b'\n' {
            return i;
        }
    }
    bytes.len()
}

// What stands after a line with so many bytes and its line feed.
fn behind_line(bytes: &[u8], len: usize) -> &[u8]
    requires { len < length bytes.now }
    ensures { result.now ≡ drop (len + 1) bytes.now }
{
    &bytes[len + 1..]
}

/// The tokens of a gadget file, in order. Lines end at line feeds; a carriage return that is the
/// last byte of a line is dropped, and then each line is blank, a header, a comment or an
/// assignment. A header line and an assignment line count up to their next `#`, and have only tabs
/// and the bytes 32 to 126 there; otherwise the first line that has another byte is the answer.
/// Time is linear in the length of the file.
pub fn tokens(alloc: Global, bytes: &[u8]) -> Result<Vec<Token>, TextError>
    requires { length bytes.now ≤ most_file_bytes }
    ensures tokens { IfOk result (λ v. v.items ≡ tokens_of bytes.now) }
    ensures text { OnOk result (first_not_text 1 (lines_of bytes.now) ≡ None) }
    ensures not_text { IfErr result (NamesLine (first_not_text 1 (lines_of bytes.now))) }
{
    let mut tokens = Vec::new(alloc);
    let mut number = 1;
    let mut at = 0;
    let mut rest = bytes;
    'lines: loop {
        let len = line_len(rest);
        add_line(&mut tokens, number, at, without_return(&rest[..len]))?;
        if len == rest.len() {
            return Ok(tokens);
        }
        number += 1;
        at += len as u32 + 1;
        rest = behind_line(rest, len);
    }
}
