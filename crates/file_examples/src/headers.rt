//! Header lines that are read, and header lines that are refused.

ghost use Rattle.std.specs.Prelude.{◌≤◌, length};
ghost use Rattle.gadget_text.specs.Limits.{most_file_bytes};

use gadget_headers::{Headers, Stems, read_headers};
use gadget_text::{FileError, Header, MOST_FILE_BYTES, TextError, What, tokens};
use std::alloc::{AllocError, Global};
use std::test::Fail;

// What the headers of a text say, and on which line what is after them begins: 0 where the text ends with them.
#[derive(Clone, Copy)]
struct Said {
    shares: u8,
    inputs: (u32, &'static str),
    randoms: Option<(u32, &'static str)>,
    outputs: (u32, &'static str),
    rest: u32,
}

const READ: [(&str, Said); 4] = [
    (
        "#PROFILE 1\n#SHARES 2\n#IN a b\n#RANDOMS r0 _s\n#OUT d\nd0 = a0",
        Said {
            shares: 2,
            inputs: (3, "a b"),
            randoms: Some((4, "r0 _s")),
            outputs: (5, "d"),
            rest: 6,
        },
    ),
    (
        "#OUT c d\n# note\n\n#IN a b e f # d\n#SHARES 16",
        Said {
            shares: 16,
            inputs: (4, "a b e f"),
            randoms: None,
            outputs: (1, "c d"),
            rest: 0,
        },
    ),
    (
        "#RANDOMS\n#PROFILE 00000000000000000000001\n#IN a\n#OUT a\n#SHARES 02\n\nd0 = a0\n#IN 1\n",
        Said {
            shares: 2,
            inputs: (3, "a"),
            randoms: Some((1, "")),
            outputs: (4, "a"),
            rest: 7,
        },
    ),
    (
        "#SHARES 0000000000000000000000001\n#IN a\n#OUT d\n= 1",
        Said {
            shares: 1,
            inputs: (2, "a"),
            randoms: None,
            outputs: (3, "d"),
            rest: 4,
        },
    ),
];

const REFUSED: [(&str, FileError); 55] = [
    // One offence.
    ("#PROFILE", FileError::Syntax(1)),
    ("#PROFILE 1 1", FileError::Syntax(1)),
    ("#SHARES # 2", FileError::Syntax(1)),
    ("#IN", FileError::Syntax(1)),
    ("\n#OUT\n", FileError::Syntax(2)),
    ("#PROFILE 1\n#PROFILE 1", FileError::HeaderTwice(2)),
    ("#SHARES 2\n#SHARES 2", FileError::HeaderTwice(2)),
    ("#IN a\n#IN b", FileError::HeaderTwice(2)),
    ("#RANDOMS\n#RANDOMS", FileError::HeaderTwice(2)),
    ("#OUT d\n\n#OUT d", FileError::HeaderTwice(3)),
    ("#PROFILE 0", FileError::BadNumber(1)),
    ("#PROFILE 2", FileError::BadNumber(1)),
    ("#PROFILE 257", FileError::BadNumber(1)),
    ("#PROFILE 18446744073709551617", FileError::BadNumber(1)),
    ("#PROFILE 1a", FileError::BadNumber(1)),
    ("#SHARES 0", FileError::BadNumber(1)),
    ("#SHARES 00", FileError::BadNumber(1)),
    ("#SHARES -2", FileError::BadNumber(1)),
    ("#SHARES 2.", FileError::BadNumber(1)),
    ("#IN 0a", FileError::BadName(1)),
    ("#IN a b.1", FileError::BadName(1)),
    ("#RANDOMS r s, t", FileError::BadName(1)),
    ("#OUT d=", FileError::BadName(1)),
    ("#SHARES 17", FileError::TooMany(What::Shares)),
    ("#SHARES 258", FileError::TooMany(What::Shares)),
    (
        "#SHARES 18446744073709551618",
        FileError::TooMany(What::Shares),
    ),
    ("#IN a b c d e", FileError::TooMany(What::Inputs)),
    ("#OUT a b c", FileError::TooMany(What::Outputs)),
    ("#IN a\n#OUT d", FileError::HeaderMissing(Header::Shares)),
    ("#SHARES 2\n#OUT d", FileError::HeaderMissing(Header::In)),
    ("#SHARES 2\n#IN a", FileError::HeaderMissing(Header::Out)),
    // Two, of which the order of the offences decides.
    ("#SHARES 2\n#SHARES 2 3", FileError::Syntax(2)),
    ("#PROFILE 1\n#PROFILE", FileError::Syntax(2)),
    ("#IN a\n#IN", FileError::Syntax(2)),
    ("#OUT d\n#OUT", FileError::Syntax(2)),
    ("#PROFILE 2 2", FileError::Syntax(1)),
    ("#SHARES 17 0", FileError::Syntax(1)),
    ("#PROFILE 1\n#PROFILE 2", FileError::HeaderTwice(2)),
    ("#SHARES 2\n#SHARES x", FileError::HeaderTwice(2)),
    ("#SHARES 2\n#SHARES 17", FileError::HeaderTwice(2)),
    ("#IN a\n#IN 1", FileError::HeaderTwice(2)),
    ("#IN a\n#IN a b c d e", FileError::HeaderTwice(2)),
    ("#RANDOMS r\n#RANDOMS r.1", FileError::HeaderTwice(2)),
    ("#OUT d\n#OUT a b 3", FileError::HeaderTwice(2)),
    ("#IN a b c d 5", FileError::BadName(1)),
    ("#OUT 1 b c", FileError::BadName(1)),
    ("", FileError::HeaderMissing(Header::Shares)),
    ("#OUT d", FileError::HeaderMissing(Header::Shares)),
    ("#SHARES 2", FileError::HeaderMissing(Header::In)),
    // Two, of which the order of the lines decides.
    ("#SHARES 17\n#IN", FileError::TooMany(What::Shares)),
    ("#OUT 1\n#SHARES", FileError::BadName(1)),
    ("#IN 1\nd0 = a0", FileError::BadName(1)),
    (
        "d0 = a0\n#SHARES 0",
        FileError::HeaderMissing(Header::Shares),
    ),
    (
        "#SHARES 2\n#IN a\nd0 = a0\n#OUT d",
        FileError::HeaderMissing(Header::Out),
    ),
    (
        "#SHARES 2\n)\n#IN a\n#OUT d",
        FileError::HeaderMissing(Header::In),
    ),
];

// Whether stems are listed on this line, and are written so.
fn are_written(text: &[u8], stems: Stems, (line, written): (u32, &str)) -> bool {
    let (Some(first), Some(last)) = (stems.words.first(), stems.words.last()) else {
        return stems.line == line && written.is_empty();
    };
    let words = text.get(first.from as usize..last.to as usize);
    stems.line == line && words == Some(written.as_bytes())
}

// Whether there are stems or not, as expected.
fn are_written_or_missing(
    text: &[u8],
    stems: Option<Stems>,
    expected: Option<(u32, &str)>,
) -> bool {
    match (stems, expected) {
        (Some(stems), Some(expected)) => are_written(text, stems, expected),
        (None, None) => true,
        _ => false,
    }
}

// Whether headers say this.
fn say(text: &[u8], headers: Headers, said: Said) -> bool {
    headers.shares == said.shares
        && are_written(text, headers.inputs, said.inputs)
        && are_written_or_missing(text, headers.randoms, said.randoms)
        && are_written(text, headers.outputs, said.outputs)
        && headers.rest.first().map_or(0, |token| token.line) == said.rest
}

// Whether the headers of a text are read as expected, or refused so.
fn is_read_as(
    alloc: Global,
    text: &[u8],
    expected: Result<Said, FileError>,
) -> Result<bool, TextError>
    requires { length text.now ≤ most_file_bytes }
{
    let tokens = tokens(alloc, text)?;
    match (read_headers(text, &tokens), expected) {
        (Ok(headers), Ok(said)) => Ok(say(text, headers, said)),
        (Err(error), Err(offence)) => Ok(error == offence),
        _ => Ok(false),
    }
}

#[test]
fn reads_and_refuses_headers(rt: HostRuntime) -> Result<(), Fail> {
    for (text, said) in READ {
        assert!(rt; text.len() <= MOST_FILE_BYTES);
        assert!(rt;
            is_read_as(rt.alloc(), text.as_bytes(), Ok(said))?,
            "{text}"
        );
    }
    for (text, offence) in REFUSED {
        assert!(rt; text.len() <= MOST_FILE_BYTES);
        assert!(rt;
            is_read_as(rt.alloc(), text.as_bytes(), Err(offence))?,
            "{text}"
        );
    }
    Ok(())
}

// A line with a header of so many randoms, and a word after them.
fn randoms(alloc: Global, count: usize, word: &str) -> Result<Vec<u8>, AllocError> {
    let mut text = Vec::new(alloc);
    text.extend_from_slice(b"#RANDOMS")?;
    for _ in 0..count {
        text.extend_from_slice(b" r")?;
    }
    text.extend_from_slice(word.as_bytes())?;
    Ok(text)
}

#[test]
fn takes_128_randoms(rt: HostRuntime) -> Result<(), Fail> {
    for (count, word, offence) in [
        (128, "", FileError::HeaderMissing(Header::Shares)),
        (128, " r", FileError::TooMany(What::Randoms)),
        (128, " r.1", FileError::BadName(1)),
        (127, " 1", FileError::BadName(1)),
    ] {
        let text = randoms(rt.alloc(), count, word)?;
        assert!(rt; text.len() <= MOST_FILE_BYTES);
        assert!(rt;
            is_read_as(rt.alloc(), &text, Err(offence))?,
            "{count}{word}"
        );
    }
    Ok(())
}
