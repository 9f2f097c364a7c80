//! The lines after the headers.

ghost use Rattle.std.specs.Prelude.{◌≡◌, ◌<◌, ◌≤◌, ◌+◌, ◌++◌, ℕ, List, All, false, is_some, length, map, IfOk};
ghost use Rattle.std.specs.List.{list_any};
ghost use Rattle.gadget_limits.specs.Limits.{most_variables};
ghost use Rattle.gadget_text.specs.Errors.{Gives, Is, MemoryAside};
ghost use Rattle.gadget_text.specs.Places.{LiesWithin, lexemes_in, line_of, lines_in};
ghost use Rattle.gadget_headers.specs.Headers.{header_of};
ghost use Rattle.gadget_grammar.specs.Grammar.{Tree};
ghost use Rattle.gadget_grammar.specs.Seen.{IsStepWithin, steps_in};
ghost use Rattle.gadget_grammar.specs.Steps.{postfix};
ghost use Rattle.gadget_tree.specs.File.{LineSays, LinesSay};
ghost use Rattle.gadget_tree.specs.Gadgets.{IsOperationNode};
ghost use Rattle.gadget_tree.specs.Made.{names_made, with_steps};
ghost use Rattle.gadget_tree.specs.Operations.{made_variables};
ghost use Rattle.gadget_tree.specs.Seen.{node_of};
ghost use Rattle.gadget_tree.specs.Variables.{names_of, is_among};

use crate::inner_names::{is_some_taken, name_made};
use crate::making::kinds_made;
use crate::operations::{are_known, count_made};
use crate::var::{Var, VarKind};
use crate::variables::Variables;
use gadget_grammar::{Step, assignment};
use gadget_limits::MOST_VARIABLES;
use gadget_text::{FileError, LineTokens, Token, TokenKind, What, first_line, text};
use std::alloc::{AllocError, Global};

// The variables after those that a line makes of operations of these kinds, which assigns to this name.
fn with_kinds(
    alloc: Global,
    line: u32,
    name: &[u8],
    kinds: &[VarKind],
    variables: Variables,
) -> Result<Variables, AllocError>
    requires fresh { list_any (is_among (names_of variables)) (names_made name.now (length kinds.now)) ≡ false }
    requires room { length variables + length kinds.now ≤ most_variables }
    requires operations { All (λ kind. IsOperationNode (node_of kind)) kinds.now }
    ensures { IfOk result (λ v.
        v ≡ variables ++ made_variables line (names_made name.now (length kinds.now)) (map node_of kinds.now)) }
{
    let mut now = variables;
    for (k, kind) in kinds.iter().enumerate() {
        let name = name_made(alloc, name, kinds.len(), k + 1)?;
        let var = Var {
            name,
            kind: *kind,
            line,
        };
        now = now.with(var)?;
    }
    Ok(now)
}

// The variables after a line that assigns what the steps of a tree give to a name, or the first offence.
fn with_steps(
    alloc: Global,
    bytes: &[u8],
    line: u32,
    name: &[u8],
    steps: &[Step],
    variables: Variables,
) -> Result<Variables, FileError>
    requires within { All (IsStepWithin (length bytes.now)) steps.now }
    requires tree { (tree : Tree) × (steps_in bytes.now steps.now ≡ postfix tree) }
    ensures { Gives (λ v. v) result
        (MemoryAside (Is (with_steps line variables name.now (steps_in bytes.now steps.now)))) }
{
    let count = count_made(steps);
    if is_some_taken(&variables, name, count) {
        return Err(FileError::NameTwice(line));
    }
    if !are_known(bytes, &variables, steps) {
        return Err(FileError::Unknown(line));
    }
    if count > MOST_VARIABLES - variables.len() {
        return Err(FileError::TooMany(What::Variables));
    }
    let kinds = kinds_made(alloc, bytes, &variables, steps)?;
    Ok(with_kinds(alloc, line, name, &kinds, variables)?)
}

// Whether a line is a header.
fn is_header(tokens: &[Token]) -> bool
    requires { 0 < length tokens.now }
    ensures { (bytes : List ℕ) → result ≡ is_some (header_of (lexemes_in bytes tokens.now)) }
{
    match tokens[0].kind {
        TokenKind::Head(_) => true,
        _ => false,
    }
}

// The variables after a line, or its offence.
fn with_line(
    alloc: Global,
    bytes: &[u8],
    line: &LineTokens<'_>,
    variables: Variables,
) -> Result<Variables, FileError>
    requires within { All (LiesWithin (length bytes.now)) line.now.tokens.now }
    requires some { 0 < length line.now.tokens.now }
    ensures { Gives (λ v. v) result (MemoryAside (LineSays variables (line_of bytes.now line.now))) }
{
    if is_header(line.tokens) {
        return Err(FileError::Syntax(line.line));
    }
    let says = assignment(alloc, bytes, line)?;
    let name = text(bytes, says.name);
    with_steps(alloc, bytes, line.line, name, &says.steps, variables)
}

/// The variables after the lines to which these tokens belong, or the first offence in them. Time is linear in the
/// length of the lines and of the names that they make, but for look-ups, which are logarithmic in how many variables
/// there are, and for each line a look at each variable.
pub(crate) fn with_lines(
    alloc: Global,
    bytes: &[u8],
    tokens: &[Token],
    variables: Variables,
) -> Result<Variables, FileError>
    requires within { All (LiesWithin (length bytes.now)) tokens.now }
    ensures { Gives (λ v. v) result (MemoryAside (LinesSay variables (lines_in bytes.now tokens.now))) }
{
    let mut rest = tokens;
    let mut now = variables;
    while let Some(line) = first_line(rest) {
        now = with_line(alloc, bytes, &line, now)?;
        rest = line.rest;
    }
    Ok(now)
}
