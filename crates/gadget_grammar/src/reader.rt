//! A reader of expressions that goes once through the tokens, with a stack of its own.

ghost use Rattle.std.specs.Prelude.{◌≡◌, ℕ, List, [], All, length, IfOk, OnOk, true, false};
ghost use Rattle.gadget_text.specs.Places.{LiesWithin};
ghost use Rattle.gadget_grammar.specs.Steps.{sum, product};
ghost use Rattle.gadget_grammar.specs.Machine.{with_waiting, with_level, final_steps, steps_from, initial_state};
ghost use Rattle.gadget_grammar.specs.Seen.{symbols_in, steps_in, name_tokens, word_tokens, state_in, state_after, AddsName, Advances, GivesSteps};

use crate::level::Level;
use crate::step::Step;
use gadget_text::{FileError, Token, TokenKind, is_name, text};
use std::alloc::{AllocError, Global};

/// How far an expression is read.
#[derive(Drop)]
struct Reader {
    steps: Vec<Step>,
    /// The levels around the innermost parentheses.
    outer: Vec<Level>,
    here: Level,
    /// Whether a unit stands last.
    has_unit: bool,
}

const EMPTY: Level = Level {
    sum: false,
    product: false,
};

// Puts out a product that waits.
fn end_product(steps: &mut Vec<Step>, level: Level) -> Result<(), AllocError>
    ensures steps { OnOk result ((bytes : List ℕ) →
        steps_in bytes steps.new.items ≡ with_waiting level.product product (steps_in bytes steps.old.items)) }
    ensures names { OnOk result (name_tokens steps.new.items ≡ name_tokens steps.old.items) }
{
    if level.product {
        steps.push(Step::Product)?;
    }
    Ok(())
}

// Puts out a sum that waits.
fn end_sum(steps: &mut Vec<Step>, level: Level) -> Result<(), AllocError>
    ensures steps { OnOk result ((bytes : List ℕ) →
        steps_in bytes steps.new.items ≡ with_waiting level.sum sum (steps_in bytes steps.old.items)) }
    ensures names { OnOk result (name_tokens steps.new.items ≡ name_tokens steps.old.items) }
{
    if level.sum {
        steps.push(Step::Sum)?;
    }
    Ok(())
}

// Puts out all that waits at a level: a product before a sum, whose right side it is.
fn end_level(steps: &mut Vec<Step>, level: Level) -> Result<(), AllocError>
    ensures steps { OnOk result ((bytes : List ℕ) →
        steps_in bytes steps.new.items ≡ with_level level (steps_in bytes steps.old.items)) }
    ensures names { OnOk result (name_tokens steps.new.items ≡ name_tokens steps.old.items) }
{
    end_product(steps, level)?;
    end_sum(steps, level)
}

impl Reader {
    // Nothing is read.
    fn new(alloc: Global) -> Reader
        ensures state { (bytes : List ℕ) → state_in bytes result ≡ initial_state }
        ensures empty { result.steps.items ≡ [] }
    {
        Reader {
            steps: Vec::new(alloc),
            outer: Vec::new(alloc),
            here: EMPTY,
            has_unit: false,
        }
    }

    // Where a unit is wanted, only a name and an opening parenthesis are right.
    fn begin(&mut self, line: u32, bytes: &[u8], token: Token) -> Result<(), FileError>
        requires span { LiesWithin (length bytes.now) token }
        requires unit { self.old.has_unit ≡ false }
        ensures state { Advances line result (state_in bytes.now self.new) (state_after bytes.now self.old token) }
        ensures names { OnOk result (AddsName token self.old.steps.items self.new.steps.items) }
    {
        match token.kind {
            TokenKind::Word => {
                if !is_name(text(bytes, token)) {
                    return Err(FileError::Syntax(line));
                }
                self.steps.push(Step::Name(token))?;
                self.has_unit = true;
                Ok(())
            }
            TokenKind::Open => {
                self.outer.push(self.here)?;
                self.here = EMPTY;
                Ok(())
            }
            _ => Err(FileError::Syntax(line)),
        }
    }

    // After a unit, only `+`, `*` and a closing parenthesis are right.
    fn go_on(&mut self, line: u32, token: Token) -> Result<(), FileError>
        requires unit { self.old.has_unit ≡ true }
        ensures state { (bytes : List ℕ) →
            Advances line result (state_in bytes self.new) (state_after bytes self.old token) }
        ensures names { OnOk result (AddsName token self.old.steps.items self.new.steps.items) }
    {
        match token.kind {
            TokenKind::Plus => {
                end_level(&mut self.steps, self.here)?;
                self.here = Level {
                    sum: true,
                    product: false,
                };
                self.has_unit = false;
                Ok(())
            }
            TokenKind::Times => {
                end_product(&mut self.steps, self.here)?;
                self.here.product = true;
                self.has_unit = false;
                Ok(())
            }
            TokenKind::Close => {
                end_level(&mut self.steps, self.here)?;
                let Some(level) = self.outer.pop() else {
                    return Err(FileError::Syntax(line));
                };
                self.here = level;
                Ok(())
            }
            _ => Err(FileError::Syntax(line)),
        }
    }

    // Reads one more token.
    fn advance(&mut self, line: u32, bytes: &[u8], token: Token) -> Result<(), FileError>
        requires { LiesWithin (length bytes.now) token }
        ensures state { Advances line result (state_in bytes.now self.new) (state_after bytes.now self.old token) }
        ensures names { OnOk result (AddsName token self.old.steps.items self.new.steps.items) }
    {
        if self.has_unit {
            self.go_on(line, token)
        } else {
            self.begin(line, bytes, token)
        }
    }

    // The steps, where the expression may end.
    fn finish(self, line: u32) -> Result<Vec<Step>, FileError>
        ensures steps { (bytes : List ℕ) → GivesSteps line bytes result (final_steps (state_in bytes self)) }
        ensures names { IfOk result (λ v. name_tokens v.items ≡ name_tokens self.steps.items) }
    {
        let Reader {
            mut steps,
            outer,
            here,
            has_unit,
        } = self;
        if !outer.is_empty() || !has_unit {
            return Err(FileError::Syntax(line));
        }
        end_level(&mut steps, here)?;
        Ok(steps)
    }
}

/// The steps of an expression, in post-order.
pub(crate) fn expression(
    alloc: Global,
    line: u32,
    bytes: &[u8],
    tokens: &[Token],
) -> Result<Vec<Step>, FileError>
    requires { All (LiesWithin (length bytes.now)) tokens.now }
    ensures steps { GivesSteps line bytes.now result (steps_from initial_state (symbols_in bytes.now tokens.now)) }
    ensures names { IfOk result (λ v. name_tokens v.items ≡ word_tokens tokens.now) }
{
    let mut reader = Reader::new(alloc);
    for token in tokens {
        reader.advance(line, bytes, *token)?;
    }
    reader.finish(line)
}
