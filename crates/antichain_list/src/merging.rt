//! Which codes of two lists stay where the lists are merged.

ghost use Rattle.std.specs.Prelude.{◌↔◌, ◌<◌, ◌≤◌, ℕ, All, Contains, IsTrue, OnOk, length, take};
ghost use Rattle.tuple_order.specs.Codes.{size_of_code};
ghost use Rattle.antichain_list.specs.Held.{AreCodes, AreMarked, Gains, IsCode, NoneWithin};

use crate::codes::{first_subset, place_of, tuple_of};
use crate::marks::Marks;
use mask_bytes::OutOfMemory;
use tuple_order::{lowest_code, size_in};

/// Adds the codes in `list` of the tuples of which no tuple of `others` is a proper subset. Of `others` only those are
/// looked up that are smaller than the greatest tuple of `list`; where there are none, `list` is copied.
pub fn add_minimal(
    codes: &mut Vec<u64>,
    list: &[u64],
    others: &[u64],
    marks: &Marks,
) -> Result<(), OutOfMemory>
    requires list { AreCodes list.now }
    requires others { AreCodes others.now }
    requires marked { AreMarked marks.now others.now }
    ensures { OnOk result (Gains codes.old.items list.now others.now codes.new.items) }
{
    let smaller = smaller_count(others, list);
    if smaller == 0 {
        codes.extend_from_slice(list)?;
        return Ok(());
    }
    add_uncovered(codes, list, &others[..smaller], marks)
}

// The same, where each of `others` may be a proper subset of some tuple of `list`.
fn add_uncovered(
    codes: &mut Vec<u64>,
    list: &[u64],
    others: &[u64],
    marks: &Marks,
) -> Result<(), OutOfMemory>
    requires list { All IsCode list.now }
    requires some { 0 < length others.now }
    requires others { AreCodes others.now }
    requires marked { AreMarked marks.now others.now }
    ensures { OnOk result (Gains codes.old.items list.now others.now codes.new.items) }
{
    for code in list {
        if has_none_within(others, marks, *code) {
            codes.push(*code)?;
        }
    }
    Ok(())
}

// Whether no tuple of a list is a proper subset of that with a code. One that is no larger than the first of the list
// isn't looked up.
fn has_none_within(list: &[u64], marks: &Marks, code: u64) -> bool
    requires some { 0 < length list.now }
    requires list { AreCodes list.now }
    requires marked { AreMarked marks.now list.now }
    requires code { IsCode code }
    ensures { IsTrue result ↔ NoneWithin list.now code }
{
    if size_in(code) <= size_in(list[0]) {
        return true;
    }
    match first_subset(list, marks, &tuple_of(code)) {
        Some(s) => s.code() == code,
        None => true,
    }
}

// How many codes of a list, from its start, are those of tuples that are smaller than the greatest of another list.
fn smaller_count(list: &[u64], other: &[u64]) -> usize
    requires list { AreCodes list.now }
    requires other { AreCodes other.now }
    ensures within { result ≤ length list.now }
    ensures smaller { (m n : ℕ) → Contains list.now m → Contains other.now n → size_of_code m < size_of_code n →
        Contains (take result list.now) m }
{
    if other.is_empty() {
        return 0;
    }
    place_of(list, lowest_code(size_in(other[other.len() - 1])))
}
