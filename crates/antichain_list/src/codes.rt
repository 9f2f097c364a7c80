//! Rising lists of codes: what is looked up in them, and what is taken out.

ghost use Rattle.std.specs.Prelude.{◌≡◌, ◌↔◌, ℕ, ◌^◌, ◌<◌, ◌≤◌, ◌++◌, List, All, Contains, IsTrue, IfSome, IfNone, map, length, take, drop, slice_index, vec_len};
ghost use Rattle.std.specs.List.Sorted.{IsNonDecreasing};
ghost use Rattle.tuple_model.specs.Limits.{most_items, most_size};
ghost use Rattle.tuple_model.specs.Tuples.{IsTuple, IsSubset};
ghost use Rattle.tuple_model.specs.Minimal.{Picks};
ghost use Rattle.tuple_model.specs.Antichains.{Covers};
ghost use Rattle.tuple_order.specs.Codes.{size_of_code, tuple_of_code};
ghost use Rattle.antichain_list.specs.Held.{AreCodes, AreMarked, IsCode, IsLeastOfBoth, IsLower, IsNoSuperset};
ghost use Rattle.antichain_list.specs.Lists.{IsFirstSubset};

use crate::marks::{Marks, marked_part};
use tuple_order::{Tuple, is_subset, size_in};

/// The tuple with a code.
pub fn tuple_of(code: u64) -> Tuple
    requires { IsCode code }
    ensures { result ≡ tuple_of_code code }
{
    Tuple::of_code(code).unwrap()
}

/// Whether a tuple is no larger than the first of the list. Since no member is smaller than that one, no proper subset
/// of such a tuple is there.
pub fn is_small(list: &[u64], t: &Tuple) -> bool
    requires { 0 < length list.now }
    ensures { IsTrue result → length t.now ≤ size_of_code (slice_index list.now 0) }
{
    t.items().len() <= size_in(list[0])
}

/// The tuple, where it stands in a list that has no proper subset of it.
pub fn itself(list: &[u64], t: &Tuple) -> Option<Tuple>
    requires codes { AreCodes list.now }
    requires small { length t.now ≤ size_of_code (slice_index list.now 0) }
    ensures first { IfSome result (λ s. IsFirstSubset (map tuple_of_code list.now) t.now s) }
    ensures none { IfNone result (Covers (map tuple_of_code list.now) t.now → ⊥) }
{
    has(list, t.code()).then_some(*t)
}

/// The first of the tuples with these codes, whose items are marked, that is a subset of `t`.
// It isn't inlined, since the pass goes faster over small tuples so.
#[inline(never)]
pub fn first_subset(list: &[u64], marks: &Marks, t: &Tuple) -> Option<Tuple>
    requires some { 0 < length list.now }
    requires codes { AreCodes list.now }
    requires marked { AreMarked marks.now list.now }
    ensures first { IfSome result (λ s. IsFirstSubset (map tuple_of_code list.now) t.now s) }
    ensures none { IfNone result (Covers (map tuple_of_code list.now) t.now → ⊥) }
{
    let part = marked_part(marks, t);
    if is_small(list, &part) {
        itself(list, &part)
    } else {
        first_of_subsets(list, &part)
    }
}

// The first of the tuples with these codes that is a subset of `t`, looked up by the codes of all subsets.
fn first_of_subsets(list: &[u64], t: &Tuple) -> Option<Tuple>
    requires { AreCodes list.now }
    ensures first { IfSome result (λ s. IsFirstSubset (map tuple_of_code list.now) t.now s) }
    ensures none { IfNone result (Covers (map tuple_of_code list.now) t.now → ⊥) }
{
    let subsets = t.subset_codes();
    let code = least_held(list, &subsets[..subset_count(t)])?;
    Some(tuple_of(code))
}

// How many subsets a tuple has.
fn subset_count(t: &Tuple) -> usize
    ensures count { result ≡ 2 ^ length t.now }
    ensures few { result ≤ 64 }
    ensures tuple { IsTuple most_items most_size t.now }
{
    1 << t.items().len()
}

// The least of the codes that stands in the list.
fn least_held(list: &[u64], codes: &[u64]) -> Option<u64>
    requires { IsNonDecreasing list.now }
    ensures { IsLeastOfBoth list.now codes.now result }
{
    let mut least = None;
    for code in codes {
        if is_lower(*code, least) && has(list, *code) {
            least = Some(*code);
        }
    }
    least
}

// Whether a code is lower than the least so far.
fn is_lower(code: u64, least: Option<u64>) -> bool
    ensures { IsTrue result ↔ IsLower code least }
{
    match least {
        Some(known) => code < known,
        None => true,
    }
}

// Whether a code stands in the list. Most codes that it lacks come before its first or after its last.
fn has(list: &[u64], code: u64) -> bool
    requires { IsNonDecreasing list.now }
    ensures { IsTrue result ↔ Contains list.now code }
{
    if list.is_empty() || code < list[0] || list[list.len() - 1] < code {
        return false;
    }
    list.binary_search(&code).is_ok()
}

/// Where a code belongs in the list: after those that are lower.
pub fn place_of(list: &[u64], code: u64) -> usize
    requires { IsNonDecreasing list.now }
    ensures within { result ≤ length list.now }
    ensures lower { (k : ℕ) → k < result → slice_index list.now k < code }
    ensures others { (k : ℕ) → result ≤ k → k < length list.now → code ≤ slice_index list.now k }
{
    list.partition_point(|held| *held < code)
}

/// Takes out the codes of supersets of a tuple, from a place on.
pub fn drop_supersets(codes: &mut Vec<u64>, from: usize, t: &Tuple)
    requires within { from ≤ vec_len codes.old }
    requires codes { All IsCode (drop from codes.old.items) }
    ensures { (rest : List ℕ) × (codes.new.items ≡ take from codes.old.items ++ rest)
        × Picks (IsNoSuperset t.now) (drop from codes.old.items) rest }
{
    let kept = keep_others(&mut codes[from..], t);
    codes.truncate(from + kept);
}

// Moves the codes of all tuples but supersets to the start, in order, and says how many they are.
fn keep_others(codes: &mut [u64], t: &Tuple) -> usize
    requires { All IsCode codes.old }
    ensures within { result ≤ length codes.new }
    ensures kept { Picks (IsNoSuperset t.now) codes.old (take result codes.new) }
{
    let mut kept = 0;
    for place in 0..codes.len() {
        let code = codes[place];
        if !is_subset(t, &tuple_of(code)) {
            codes[kept] = code;
            kept += 1;
        }
    }
    kept
}
