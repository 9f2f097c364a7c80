//! The tokens of a file, line by line.

ghost use Rattle.std.specs.Prelude.{◌≡◌, ◌+◌, ◌≤◌, ◌<◌, ◌==◌, ◌++◌, ◌∷◌, [], ℕ, List, length, take, drop, IfNone, IfSome};
ghost use Rattle.std.specs.List.{prefix_len};
ghost use Rattle.gadget_text.specs.Places.{line_of, lines_in};

use crate::token::Token;

/// The tokens of a line, and those of the lines after it.
#[derive(Clone, Copy)]
pub struct LineTokens<'a> {
    /// The line's number, counted from 1.
    pub line: u32,
    /// The tokens of this line, at least one.
    pub tokens: &'a [Token],
    pub rest: &'a [Token],
}

// How many tokens from the front on are of a line.
fn run_len(line: u32, tokens: &[Token]) -> usize
    ensures len { result ≡ prefix_len (λ u. u.line == line) tokens.now }
    ensures within { result ≤ length tokens.now }
{
    for (i, token) in tokens.iter().enumerate() {
        if token.line != line {
            return i;
        }
    }
    tokens.len()
}

// The tokens of the first line, of which there are so many, and those after them.
fn split_at<'a>(line: u32, tokens: &'a [Token], len: usize) -> LineTokens<'a>
    requires { len ≤ length tokens.now }
    ensures line { result.line ≡ line }
    ensures tokens { result.tokens.now ≡ take len tokens.now }
    ensures rest { result.rest.now ≡ drop len tokens.now }
{
    LineTokens {
        line,
        tokens: &tokens[..len],
        rest: &tokens[len..],
    }
}

/// The first line of tokens, where there is one. Time is linear in how many tokens it has.
pub fn first_line(tokens: &[Token]) -> Option<LineTokens<'_>>
    ensures none { IfNone result (tokens.now ≡ []) }
    ensures line { IfSome result (λ l. (bytes : List ℕ) →
        lines_in bytes tokens.now ≡ line_of bytes l ∷ lines_in bytes l.rest.now) }
    ensures some { IfSome result (λ l. 0 < length l.tokens.now) }
    ensures parts { IfSome result (λ l. l.tokens.now ++ l.rest.now ≡ tokens.now) }
{
    if tokens.is_empty() {
        return None;
    }
    let line = tokens[0].line;
    let len = run_len(line, tokens);
    Some(split_at(line, tokens, len))
}
