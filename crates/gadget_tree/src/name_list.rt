//! Lists of names.

ghost use Rattle.std.specs.Prelude.{◌≡◌, ◌+◌, ◌++◌, ◌<◌, All, length, drop, map, IfOk, OnOk};
ghost use Rattle.std.specs.List.{range_with_len};
ghost use Rattle.gadget_text.specs.Places.{LiesWithin, text_in};
ghost use Rattle.gadget_tree.specs.Variables.{share_name, share_names, is_among, are_distinct};

use crate::name::Name;
use gadget_text::{Token, text};
use std::alloc::{AllocError, Global};

/// The name of a share: the stem, and the index in decimal.
pub(crate) fn share_name(alloc: Global, stem: &[u8], index: u8) -> Result<Name, AllocError>
    ensures { IfOk result (λ name. name ≡ share_name stem.now index) }
{
    let number = format!(in alloc; "{index}")?;
    Name::joined(alloc, stem, number.as_bytes())
}

// Adds the names of the shares of one stem.
fn push_share_names(
    alloc: Global,
    names: &mut Vec<Name>,
    shares: u8,
    stem: &[u8],
) -> Result<(), AllocError>
    ensures { OnOk result (names.new.items ≡ names.old.items ++ map (share_name stem.now) (range_with_len 0 shares)) }
{
    for index in 0..shares {
        names.push(share_name(alloc, stem, index)?)?;
    }
    Ok(())
}

/// Adds the names of the shares of each stem.
pub(crate) fn extend_share_names(
    alloc: Global,
    bytes: &[u8],
    names: &mut Vec<Name>,
    shares: u8,
    stems: &[Token],
) -> Result<(), AllocError>
    requires { All (LiesWithin (length bytes.now)) stems.now }
    ensures { OnOk result (
        names.new.items ≡ names.old.items ++ share_names shares (map (text_in bytes.now) stems.now)) }
{
    for stem in stems {
        push_share_names(alloc, names, shares, text(bytes, *stem))?;
    }
    Ok(())
}

/// Adds words as names.
pub(crate) fn extend_names(
    alloc: Global,
    bytes: &[u8],
    names: &mut Vec<Name>,
    words: &[Token],
) -> Result<(), AllocError>
    requires { All (LiesWithin (length bytes.now)) words.now }
    ensures { OnOk result (names.new.items ≡ names.old.items ++ map (text_in bytes.now) words.now) }
{
    for word in words {
        names.push(Name::new(alloc, text(bytes, *word))?)?;
    }
    Ok(())
}

// Whether a word is one of the names.
fn is_among(names: &[Name], word: &[u8]) -> bool
    ensures { result ≡ is_among names.now word.now }
{
    for name in names {
        if name.is(word) {
            return true;
        }
    }
    false
}

// The names after the one at a place.
fn after(names: &[Name], place: usize) -> &[Name]
    requires { place < length names.now }
    ensures { result.now ≡ drop (place + 1) names.now }
{
    &names[place + 1..]
}

/// Whether no two names are equal. Each is held against each: there are at most 224.
pub(crate) fn are_distinct(names: &[Name]) -> bool
    ensures { result ≡ are_distinct names.now }
{
    for (i, name) in names.iter().enumerate() {
        if is_among(after(names, i), name.bytes()) {
            return false;
        }
    }
    true
}
