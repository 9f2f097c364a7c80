//! Where steps are allowed, as tests of a view.

ghost use Rattle.std.specs.Prelude.{◌≡◌, ◌≢◌, ◌↔◌, ℕ, ◌^◌, ◌<◌, ◌≤◌, IsTrue, false, List, length, map, EachIndex, slice_index};
ghost use Rattle.tuple_model.specs.Tuples.{IsTuple, tuples};
ghost use Rattle.cover_core.specs.Core.{Covers, Has, home_of, path, question_of};
ghost use Rattle.cover_core.specs.Effects.{Answered, PassedBy, Seen, SeenWithin};
ghost use Rattle.cover_core.specs.Machine.{MayPublish};
ghost use Rattle.cover_core.specs.declared.state.State.{State};

use crate::inserting::{Pair, index_of};
use crate::query::Query;
use crate::state::View;
use std::sync::ledger::Ledger;
use tuple_order::{Steps, Tuple, rank, unrank};

// A code times this, of which the upper bits say where its path begins.
const FACTOR: u64 = 11_400_714_819_323_198_485;

// Whether a code was seen, at any place.
fn has_code(seen: &[(u32, u64)], code: u64) -> bool
    ensures { IsTrue result ↔ ((place : ℕ) × Has (place, code) seen.now) }
{
    for i in 0..seen.len() {
        if seen[i].1 == code {
            return true;
        }
    }
    false
}

// Whether another code than this was seen at a place.
fn has_other(seen: &[(u32, u64)], place: u32, code: u64) -> bool
    ensures { IsTrue result ↔ ((other : ℕ) × Has (place, other) seen.now × (other ≢ code)) }
{
    for i in 0..seen.len() {
        if seen[i].0 == place && seen[i].1 != code {
            return true;
        }
    }
    false
}

// Whether a rank is in one of these ranges.
fn has_rank<P: Pair>(ranges: &[P], rank: u64) -> bool
    ensures { IsTrue result ↔ ((range : ℕ × ℕ) × Has range (map P.pair ranges.now) × (range.0 ≤ rank) × (rank < range.1)) }
{
    for i in 0..ranges.len() {
        let range = ranges[i].pair();
        if range.0 <= rank && rank < range.1 {
            return true;
        }
    }
    false
}

// Whether a rank is in an open range of the view.
fn is_open(view: &View, rank: u64) -> bool
    ensures { IsTrue result ↔ Covers rank view.now }
{
    has_rank(view.held.as_slice(), rank)
}

/// Whether the view has this range open.
pub(crate) fn is_held(view: &View, range: (u64, u64)) -> bool
    ensures { IsTrue result ↔ Has range view.now.held }
{
    index_of(view.held.as_slice(), range).is_some()
}

// Whether a tuple is one of the question's.
fn fits<Q: Query>(query: &Q, t: &Tuple) -> bool
    ensures { IsTrue result ↔ IsTuple (Q.Question.items query.now) (Q.Question.size query.now) t.now }
{
    let items = t.items();
    items.len() <= usize::from(query.size()) && are_below(items, query.items())
}

fn are_below(items: &[u16], high: u16) -> bool
    ensures { IsTrue result ↔ EachIndex items.now (λ k. slice_index items.now k < high) }
{
    items.iter().all(|item| *item < high)
}

// Whether the view has seen a subset of a tuple.
fn sees_within<Q: Query>(query: &Q, view: &View, t: &Tuple) -> bool
    requires { IsTuple (Q.Question.items query.now) (Q.Question.size query.now) t.now }
    ensures { IsTrue result ↔ SeenWithin (question_of (Q.Question.items query.now) (Q.Question.size query.now)
        (Q.Question.Fails query.now)) t.now view.now }
{
    let seen = view.seen.as_slice();
    let codes = t.subset_codes();
    for k in 0..subset_count(t) {
        if has_code(seen, codes[k]) {
            return true;
        }
    }
    false
}

// How many subsets a tuple has.
fn subset_count(t: &Tuple) -> usize
    ensures count { result ≡ 2 ^ length t.now }
    ensures few { result ≤ 64 }
{
    1 << t.items().len()
}

/// Whether the view has seen a subset of each failing tuple with these ranks.
pub(crate) fn is_answered<Q: Query, L: Ledger>(
    query: &Q,
    scratch: &mut Q::Scratch,
    steps: &mut Steps<L>,
    view: &View,
    range: (u64, u64),
) -> bool
    requires scratch { Q.Fits query.now scratch.old }
    requires ranks { range.1 ≤ length (tuples (Q.Question.items query.now) (Q.Question.size query.now)) }
    ensures scratch { Q.Fits query.now scratch.new }
    ensures answered { IsTrue result → Answered (question_of (Q.Question.items query.now)
        (Q.Question.size query.now) (Q.Question.Fails query.now)) range view.now }
    ensures unanswered { result ≡ false → Answered (question_of (Q.Question.items query.now)
        (Q.Question.size query.now) (Q.Question.Fails query.now)) range view.now → ⊥ }
{
    let items = query.items();
    let size = query.size();
    for rank in range.0..range.1 {
        let t = unrank(items, size, rank);
        if query.judge(scratch, &t, steps) && !sees_within(query, view, &t) {
            return false;
        }
    }
    true
}

// Where a code's path begins.
fn home(width: u32, code: u64) -> u32
    requires { (k : ℕ) × (width ≡ 2 ^ k) }
    ensures home { result ≡ home_of width code }
    ensures within { result < width }
{
    (u128::from(code.wrapping_mul(FACTOR)) / ((1 << 64) / u128::from(width))) as u32
}

// The place so many steps along a code's path.
fn place_at(width: u32, code: u64, step: u32) -> u32
    requires { (k : ℕ) × (width ≡ 2 ^ k) }
    ensures place { result ≡ path width code step }
    ensures within { result < width }
{
    ((u64::from(home(width, code)) + u64::from(step)) % u64::from(width)) as u32
}

// How many steps along a code's path a place is.
fn step_to(width: u32, code: u64, place: u32) -> u32
    requires width { (k : ℕ) × (width ≡ 2 ^ k) }
    requires place { place < width }
    ensures step { path width code result ≡ place }
    ensures short { result < width }
{
    let from = home(width, code);
    if from <= place {
        place - from
    } else {
        place + (width - from)
    }
}

// Whether the view has seen another code at each of the first places of a code's path.
fn has_passed(width: u32, view: &View, code: u64, steps: u32) -> bool
    requires { (k : ℕ) × (width ≡ 2 ^ k) }
    ensures { IsTrue result ↔ PassedBy width code steps view.now }
{
    for step in 0..steps {
        if !has_other(view.seen.as_slice(), place_at(width, code, step), code) {
            return false;
        }
    }
    true
}

/// Whether a seat may publish a tuple at a place, in each state whose table has so many words.
pub(crate) fn may_store<Q: Query, L: Ledger>(
    query: &Q,
    scratch: &mut Q::Scratch,
    steps: &mut Steps<L>,
    width: u32,
    view: &View,
    place: u32,
    t: &Tuple,
) -> bool
    requires scratch { Q.Fits query.now scratch.old }
    requires width { (k : ℕ) × (width ≡ 2 ^ k) }
    ensures scratch { Q.Fits query.now scratch.new }
    ensures may { IsTrue result → (s : State) → length s.words ≡ width → MayPublish (question_of
        (Q.Question.items query.now) (Q.Question.size query.now) (Q.Question.Fails query.now)) s view.now place t.now }
    ensures not { result ≡ false → (s : State) → length s.words ≡ width → MayPublish (question_of
        (Q.Question.items query.now) (Q.Question.size query.now) (Q.Question.Fails query.now)) s view.now place t.now → ⊥ }
{
    if !fits(query, t) {
        return false;
    }
    if width <= place {
        return false;
    }
    if !is_open(view, rank(query.items(), query.size(), t)) {
        return false;
    }
    let code = t.code();
    let step = step_to(width, code, place);
    has_passed(width, view, code, step) && query.judge(scratch, t, steps)
}
