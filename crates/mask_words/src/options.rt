//! The options that take a number.

ghost use Rattle.std.specs.Prelude.{◌≡◌, ◌≤◌, IfOk, option_map};
ghost use Rattle.mask_words.specs.Settings.{value_by};

use crate::answer::WordsError;
use crate::number::number_between;
use mask_terms::{Opt, UsageKind};

/// The greatest order of a notion, and the greatest size of a tuple.
pub(crate) const MOST_ORDER: u64 = 6;

/// The greatest order of a task of random probing.
pub(crate) const MOST_LEAKING_ORDER: u64 = 16;

/// At least this many workers share the tuples.
const LEAST_WORKERS: u64 = 1;

/// At most this many workers share the tuples.
const MOST_WORKERS: u64 = 64;

/// A worker takes at least this many tuples at once.
const LEAST_BLOCK: u64 = 1;

/// A worker takes at most this many tuples at once.
const MOST_BLOCK: u64 = 67108864;

/// A budget is for at least this many tuples.
const LEAST_BUDGET: u64 = 1;

/// At most this many tuples may be looked at.
const MOST_BUDGET: u64 = 67108864;

/// A table has at least this many words.
const LEAST_WORDS: u64 = 4;

/// A table has at most this many words.
const MOST_WORDS: u64 = 67108864;

/// The greatest size of a tuple where `--size` isn't given.
const DEFAULT_SIZE: u64 = 3;

/// How many workers there are where `--workers` isn't given.
const DEFAULT_WORKERS: u64 = 4;

/// How many tuples a worker takes at once where `--block` isn't given.
const DEFAULT_BLOCK: u64 = 4096;

/// How many tuples may be looked at where `--budget` isn't given.
const DEFAULT_BUDGET: u64 = 16777216;

/// How many words the first table is to have where `--words` isn't given.
const DEFAULT_WORDS: u64 = 65536;

/// An option that takes a number: its range, and what stands for it where it isn't given.
#[derive(Clone, Copy)]
pub(crate) struct NumberOption {
    pub option: Opt,
    pub least: u64,
    pub most: u64,
    pub default: u64,
}

pub(crate) const SIZE: NumberOption = NumberOption {
    option: Opt::Size,
    least: 0,
    most: MOST_ORDER,
    default: DEFAULT_SIZE,
};

pub(crate) const WORKERS: NumberOption = NumberOption {
    option: Opt::Workers,
    least: LEAST_WORKERS,
    most: MOST_WORKERS,
    default: DEFAULT_WORKERS,
};

pub(crate) const BLOCK: NumberOption = NumberOption {
    option: Opt::Block,
    least: LEAST_BLOCK,
    most: MOST_BLOCK,
    default: DEFAULT_BLOCK,
};

pub(crate) const BUDGET: NumberOption = NumberOption {
    option: Opt::Budget,
    least: LEAST_BUDGET,
    most: MOST_BUDGET,
    default: DEFAULT_BUDGET,
};

pub(crate) const WORDS: NumberOption = NumberOption {
    option: Opt::FirstWords,
    least: LEAST_WORDS,
    most: MOST_WORDS,
    default: DEFAULT_WORDS,
};

/// The number that an option has: its text's, or the default where it isn't given.
pub(crate) fn value(option: NumberOption, text: Option<&str>) -> Result<u64, WordsError>
    requires some { option.least ≤ option.default }
    requires few { option.default ≤ option.most }
    ensures bounds { IfOk result (λ n. (option.least ≤ n) × (n ≤ option.most)) }
    ensures answer { result ≡ value_by option (option_map (λ s. s.now) text.entry) }
{
    let Some(text) = text else {
        return Ok(option.default);
    };
    number_between(text, option.least, option.most).ok_or(WordsError::Usage(UsageKind::Value(
        option.option,
    )))
}
