//! Files and their tokens, worked out by hand.

ghost use Rattle.std.specs.Prelude.{◌≤◌, length};
ghost use Rattle.gadget_text.specs.Limits.{most_file_bytes};

use gadget_text::{Header, MOST_FILE_BYTES, TextError, Token, TokenKind, tokens};
use std::alloc::Global;
use std::test::Fail;

// A token, in one line.
fn token(kind: TokenKind, from: u32, to: u32, line: u32) -> Token {
    Token {
        kind,
        from,
        to,
        line,
    }
}

// Whether a file has these tokens.
fn has_tokens(alloc: Global, bytes: &[u8], expected: &[Token]) -> Result<bool, TextError>
    requires { length bytes.now ≤ most_file_bytes }
{
    let tokens = tokens(alloc, bytes)?;
    Ok(*tokens == *expected)
}

// The line that is no text, or 0.
fn line_that_is_no_text(alloc: Global, bytes: &[u8]) -> Result<u32, TextError>
    requires { length bytes.now ≤ most_file_bytes }
{
    match tokens(alloc, bytes) {
        Ok(_) => Ok(0),
        Err(TextError::NotText(line)) => Ok(line),
        Err(TextError::OutOfMemory) => Err(TextError::OutOfMemory),
    }
}

#[test]
fn shows_all_lines_and_tokens(rt: HostRuntime) -> Result<(), Fail> {
    let text = "#SHARES 2\n  #IN a\t=b.1 # x\n# note\n\t \nd_0=(a.0 ^ b1)*c & -1+#q";
    let expected = [
        token(TokenKind::Head(Header::Shares), 0, 7, 1),
        token(TokenKind::Word, 8, 9, 1),
        token(TokenKind::Head(Header::In), 12, 15, 2),
        token(TokenKind::Word, 16, 17, 2),
        token(TokenKind::Word, 18, 22, 2),
        token(TokenKind::Word, 37, 40, 5),
        token(TokenKind::Equals, 40, 41, 5),
        token(TokenKind::Open, 41, 42, 5),
        token(TokenKind::Word, 42, 45, 5),
        token(TokenKind::Plus, 46, 47, 5),
        token(TokenKind::Word, 48, 50, 5),
        token(TokenKind::Close, 50, 51, 5),
        token(TokenKind::Times, 51, 52, 5),
        token(TokenKind::Word, 52, 53, 5),
        token(TokenKind::Times, 54, 55, 5),
        token(TokenKind::Other, 56, 57, 5),
        token(TokenKind::Word, 57, 58, 5),
        token(TokenKind::Plus, 58, 59, 5),
    ];
    assert!(rt; text.len() <= MOST_FILE_BYTES);
    assert!(rt; has_tokens(rt.alloc(), text.as_bytes(), expected.as_slice())?);
    Ok(())
}

#[test]
fn drops_one_return_of_a_line(rt: HostRuntime) -> Result<(), Fail> {
    let text = "#OUT d\r\nx = y\r\n";
    let expected = [
        token(TokenKind::Head(Header::Out), 0, 4, 1),
        token(TokenKind::Word, 5, 6, 1),
        token(TokenKind::Word, 8, 9, 2),
        token(TokenKind::Equals, 10, 11, 2),
        token(TokenKind::Word, 12, 13, 2),
    ];
    assert!(rt; text.len() <= MOST_FILE_BYTES);
    assert!(rt; has_tokens(rt.alloc(), text.as_bytes(), expected.as_slice())?);
    for (text, line) in [("\r\n\r", 0), ("x\n\r\r\n", 2), ("x\ry\n", 1)] {
        assert!(rt; text.len() <= MOST_FILE_BYTES);
        assert_eq!(rt;
            line_that_is_no_text(rt.alloc(), text.as_bytes())?,
            line,
            "{text}"
        );
    }
    Ok(())
}

#[test]
fn stops_at_a_comment(rt: HostRuntime) -> Result<(), Fail> {
    let text = "d0 = a0 ^ r0 # first";
    let expected = [
        token(TokenKind::Word, 0, 2, 1),
        token(TokenKind::Equals, 3, 4, 1),
        token(TokenKind::Word, 5, 7, 1),
        token(TokenKind::Plus, 8, 9, 1),
        token(TokenKind::Word, 10, 12, 1),
    ];
    assert!(rt; text.len() <= MOST_FILE_BYTES);
    assert!(rt; has_tokens(rt.alloc(), text.as_bytes(), expected.as_slice())?);
    Ok(())
}

#[test]
fn tells_headers_from_comments(rt: HostRuntime) -> Result<(), Fail> {
    for (text, header, to) in [
        ("#IN#x", Header::In, 3),
        ("#IN", Header::In, 3),
        ("#PROFILE\t", Header::Profile, 8),
        ("#RANDOMS#", Header::Randoms, 8),
    ] {
        let expected = [token(TokenKind::Head(header), 0, to, 1)];
        assert!(rt; text.len() <= MOST_FILE_BYTES);
        assert!(rt;
            has_tokens(rt.alloc(), text.as_bytes(), expected.as_slice())?,
            "{text}"
        );
    }
    for text in ["", "#", "#IN=", "# SHARES", "#INX", "#in", "##IN", "#OU"] {
        assert!(rt; text.len() <= MOST_FILE_BYTES);
        assert!(rt; has_tokens(rt.alloc(), text.as_bytes(), &[])?, "{text}");
    }
    Ok(())
}

#[test]
fn refuses_a_forbidden_byte_where_bytes_count(rt: HostRuntime) -> Result<(), Fail> {
    let cases: [(&[u8], u32); 5] = [
        (b"#SHARES 2\n# \xc8\n\t\n\nx = \xc8\n\xc8", 5),
        (b"#SHARES 2\n#IN a # \xc8\n", 0),
        (b"x = y # \xc8\n \xc8 # y", 2),
        (b"# \xc8\n#INX \xc8\n# IN \xc8", 0),
        (b"#IN a\xc8\n", 1),
    ];
    for (bytes, line) in cases {
        assert!(rt; bytes.len() <= MOST_FILE_BYTES);
        assert_eq!(rt; line_that_is_no_text(rt.alloc(), bytes)?, line);
    }
    Ok(())
}

#[test]
fn reads_each_single_byte(rt: HostRuntime) -> Result<(), Fail> {
    let kinds: [(&[u8], TokenKind); 9] = [
        (b"ABCDEFGHIJKLMNOPQRSTUVWXYZ", TokenKind::Word),
        (b"abcdefghijklmnopqrstuvwxyz", TokenKind::Word),
        (b"0123456789_.", TokenKind::Word),
        (b"=", TokenKind::Equals),
        (b"+^", TokenKind::Plus),
        (b"*&", TokenKind::Times),
        (b"(", TokenKind::Open),
        (b")", TokenKind::Close),
        (b"!\"$%',-/:;<>?@[\\]`{|}~", TokenKind::Other),
    ];
    for (bytes, kind) in kinds {
        let expected = [token(kind, 0, 1, 1)];
        for b in bytes {
            assert!(rt; has_tokens(rt.alloc(), &[*b], expected.as_slice())?, "{b}");
        }
    }
    for b in [9, 10, 13, 32, 35] {
        assert!(rt; has_tokens(rt.alloc(), &[b], &[])?, "{b}");
    }
    for b in 0..=255_u8 {
        let is_free = b == 9 || b == 10 || b == 13 || (32 <= b && b < 127);
        let line = if is_free { 0 } else { 1 };
        assert_eq!(rt; line_that_is_no_text(rt.alloc(), &[b])?, line, "{b}");
    }
    Ok(())
}
