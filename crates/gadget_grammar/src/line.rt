//! An assignment line.

ghost use Rattle.std.specs.Prelude.{◌≡◌, ◌≤◌, ◌∷◌, All, IfOk, IfSome, length, drop, option_map};
ghost use Rattle.gadget_text.specs.Errors.{Gives, MemoryAside};
ghost use Rattle.gadget_text.specs.Places.{LiesWithin, line_of, text_in};
ghost use Rattle.gadget_grammar.specs.Assignments.{StepsSaid};
ghost use Rattle.gadget_grammar.specs.Machine.{left_name, steps_from, initial_state};
ghost use Rattle.gadget_grammar.specs.Seen.{IsStepWithin, symbols_in, name_tokens, word_tokens, assignment_in, GivesSteps};

use crate::nesting::is_too_deep;
use crate::reader::expression;
use crate::step::{Assignment, Step};
use gadget_text::{FileError, LineTokens, Token, TokenKind, What, is_name, text};
use std::alloc::Global;

// The name on the left side, where a line begins with a name and `=`.
fn left_side(bytes: &[u8], tokens: &[Token]) -> Option<Token>
    requires { All (LiesWithin (length bytes.now)) tokens.now }
    ensures name { option_map (text_in bytes.now) result ≡ left_name (symbols_in bytes.now tokens.now) }
    ensures within { IfSome result (LiesWithin (length bytes.now)) }
    ensures two { IfSome result (λ _. 2 ≤ length tokens.now) }
    ensures word { IfSome result (λ t. word_tokens tokens.now ≡ t ∷ word_tokens (drop 2 tokens.now)) }
{
    if tokens.len() < 2 {
        return None;
    }
    let left = tokens[0];
    if left.kind != TokenKind::Word || tokens[1].kind != TokenKind::Equals {
        return None;
    }
    if !is_name(text(bytes, left)) {
        return None;
    }
    Some(left)
}

// The steps of what stands after the first two tokens of a line.
fn right_side(
    alloc: Global,
    line: u32,
    bytes: &[u8],
    tokens: &[Token],
) -> Result<Vec<Step>, FileError>
    requires two { 2 ≤ length tokens.now }
    requires spans { All (LiesWithin (length bytes.now)) tokens.now }
    ensures steps { GivesSteps line bytes.now result
        (steps_from initial_state (symbols_in bytes.now (drop 2 tokens.now))) }
    ensures names { IfOk result (λ v. name_tokens v.items ≡ word_tokens (drop 2 tokens.now)) }
{
    expression(alloc, line, bytes, &tokens[2..])
}

/// The name that an assignment line assigns to, and its expression in post-order. The tokens are as
/// `gadget_text::tokens` gives them; a word that is no name stands in no assignment. That parentheses are nested too
/// deep is found first, wherever else the line is wrong. Time is linear in the length of the line.
pub fn assignment(
    alloc: Global,
    bytes: &[u8],
    line: &LineTokens<'_>,
) -> Result<Assignment, FileError>
    requires { All (LiesWithin (length bytes.now)) line.now.tokens.now }
    ensures says { Gives (assignment_in bytes.now) result (MemoryAside (StepsSaid (line_of bytes.now line.now))) }
    ensures words { IfOk result (λ a. word_tokens line.now.tokens.now ≡ a.name ∷ name_tokens a.steps.items) }
    ensures name_within { IfOk result (λ a. LiesWithin (length bytes.now) a.name) }
    ensures steps_within { IfOk result (λ a. All (IsStepWithin (length bytes.now)) a.steps.items) }
    ensures few_steps { IfOk result (λ a. length a.steps.items ≤ length line.now.tokens.now) }
{
    if is_too_deep(line.tokens) {
        return Err(FileError::TooMany(What::Nesting));
    }
    let Some(name) = left_side(bytes, line.tokens) else {
        return Err(FileError::Syntax(line.line));
    };
    let steps = right_side(alloc, line.line, bytes, line.tokens)?;
    Ok(Assignment { name, steps })
}
