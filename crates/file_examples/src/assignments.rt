//! Lines that are read, and lines that are refused.

ghost use Rattle.std.specs.Prelude.{◌≤◌, All, IfOk, length};
ghost use Rattle.gadget_text.specs.Limits.{most_file_bytes};
ghost use Rattle.gadget_grammar.specs.Seen.{IsStepWithin};

use gadget_grammar::{Assignment, Step, assignment};
use gadget_text::{FileError, LineTokens, MOST_FILE_BYTES, What, tokens};
use std::alloc::{AllocError, Global};
use std::test::Fail;

// Lines, and their right sides in post-order.
const READ: [(&str, &str); 9] = [
    (
        "d1 = a1 * b1 + ((r0 + a0 * b1) + a1 * b0)",
        "a1 b1 * r0 a0 b1 * + a1 b0 * + + ",
    ),
    ("x = a + b + c", "a b + c + "),
    ("x = a * b * c", "a b * c * "),
    ("x = a + b * c + d", "a b c * + d + "),
    ("x = a * (b + c)", "a b c + * "),
    ("x=a^b&c", "a b c * + "),
    ("x = ((a))", "a "),
    ("x.10.0 = _", "_ "),
    ("_1 = y.2 + Z_", "y.2 Z_ + "),
];

// Lines that are no assignments.
const REFUSED: [&str; 16] = [
    "d0 = a0 +",
    "= a",
    "x = ",
    "x = (a",
    "x = a)",
    "x = (",
    "x = ()",
    "x = a (b)",
    "x = * a",
    "3x = a",
    "x. = a",
    "x = a.b",
    "x = a b",
    "x = a == b",
    "x = a $ b",
    "x",
];

// What the first line says.
fn read(alloc: Global, text: &[u8]) -> Result<Assignment, FileError>
    requires { length text.now ≤ most_file_bytes }
    ensures { IfOk result (λ a. All (IsStepWithin (length text.now)) a.steps.items) }
{
    let tokens = tokens(alloc, text)?;
    let line = LineTokens {
        line: 1,
        tokens: &tokens,
        rest: &[],
    };
    assignment(alloc, text, &line)
}

// Steps as a text, with a space after each.
fn text(alloc: Global, line: &[u8], steps: &[Step]) -> Result<Vec<u8>, FileError>
    requires { All (IsStepWithin (length line.now)) steps.now }
{
    let mut text = Vec::new(alloc);
    for step in steps {
        match step {
            Step::Name(token) => {
                text.extend_from_slice(&line[token.from as usize..token.to as usize])?;
            }
            Step::Sum => text.push(b'+')?,
            Step::Product => text.push(b'*')?,
        }
        text.push(b' ')?;
    }
    Ok(text)
}

// A line with so many parentheses round a name, or with only those that open.
fn nested(alloc: Global, depth: usize, is_closed: bool) -> Result<Vec<u8>, AllocError> {
    let mut line = Vec::new(alloc);
    line.extend_from_slice(b"x = ")?;
    for _ in 0..depth {
        line.push(b'(')?;
    }
    if is_closed {
        line.push(b'a')?;
        for _ in 0..depth {
            line.push(b')')?;
        }
    }
    Ok(line)
}

#[test]
fn reads_lines(rt: HostRuntime) -> Result<(), Fail> {
    for (line, steps) in READ {
        assert!(rt; line.len() <= MOST_FILE_BYTES);
        let assignment = read(rt.alloc(), line.as_bytes())?;
        let text = text(rt.alloc(), line.as_bytes(), &assignment.steps)?;
        assert_eq!(rt; text.as_slice(), steps.as_bytes());
    }
    Ok(())
}

#[test]
fn names_the_left_side(rt: HostRuntime) -> Result<(), Fail> {
    let assignment = read(rt.alloc(), b"  d0.1 = a")?;
    assert_eq!(rt; (assignment.name.from, assignment.name.to), (2, 6));
    Ok(())
}

#[test]
fn refuses_lines(rt: HostRuntime) -> Result<(), Fail> {
    for line in REFUSED {
        assert!(rt; line.len() <= MOST_FILE_BYTES);
        match read(rt.alloc(), line.as_bytes()) {
            Ok(_) => assert!(rt; false),
            Err(error) => assert_eq!(rt; error, FileError::Syntax(1)),
        }
    }
    Ok(())
}

#[test]
fn nests_to_64(rt: HostRuntime) -> Result<(), Fail> {
    for (depth, is_closed, wanted) in [
        (64, true, None),
        (64, false, Some(FileError::Syntax(1))),
        (65, true, Some(FileError::TooMany(What::Nesting))),
        (65, false, Some(FileError::TooMany(What::Nesting))),
    ] {
        let line = nested(rt.alloc(), depth, is_closed)?;
        assert!(rt; line.len() <= MOST_FILE_BYTES);
        assert_eq!(rt; read(rt.alloc(), &line).err(), wanted);
    }
    Ok(())
}
