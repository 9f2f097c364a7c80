//! Runs: tuples in a row that share all items but the last.

ghost use Rattle.std.specs.Prelude.{◌≡◌, ℕ, ◌+◌, ◌-◌, ◌<◌, ◌≤◌, IsTrue, false, length, slice_index};
ghost use Rattle.tuple_model.specs.Tuples.{HasRank, IsTuple};
ghost use Rattle.cover_core.specs.Core.{Has};
ghost use Rattle.cover_core.specs.Effects.{Further, SeenWithin};
ghost use Rattle.claim_store.specs.Rule.{asked, full, IsTight};
ghost use Rattle.claim_store.specs.Seen.{IsPassOf};
ghost use Rattle.check_workers.specs.Works.{Done, IsAtRank, ShareItems, prefix_of};

use crate::one::{Work, judge_one};
use claim_store::{Pass, Store};
use cover_core::Query;
use std::sync::ledger::Ledger;
use tuple_order::{Range, Steps, Tuple, count, next, unrank};

/// Where the run of a tuple ends, at `to` at the latest.
pub(crate) fn run_end<Q: Query>(query: &Q, t: &Tuple, rank: u64, to: u64) -> u64
    requires ranked { HasRank (Q.Question.items query.now) (Q.Question.size query.now) t.now rank }
    requires tuple { IsTuple (Q.Question.items query.now) (Q.Question.size query.now) t.now }
    requires some { rank < to }
    ensures more { rank < result }
    ensures most { result ≤ to }
    ensures share { ShareItems (Q.Question.items query.now) (Q.Question.size query.now) (prefix_of t.now) rank result }
{
    rank + left_in_run(query, t).min(to - rank)
}

// How many tuples of its run there are from a tuple on.
fn left_in_run<Q: Query>(query: &Q, t: &Tuple) -> u64
    requires tuple { IsTuple (Q.Question.items query.now) (Q.Question.size query.now) t.now }
    ensures some { 0 < result }
    ensures alone { length t.now ≡ 0 → result ≤ 1 }
    ensures left { 0 < length t.now → result + slice_index t.now (length t.now - 1) ≤ Q.Question.items query.now }
{
    let items = t.items();
    if items.is_empty() {
        return 1;
    }
    u64::from(query.items() - items[items.len() - 1])
}

/// Whether the pass sees a stored subset of a tuple's items but the last. Then all tuples of the run are covered.
pub(crate) fn is_prefix_covered<Q: Query>(store: &Store<Q>, pass: &mut Pass<Q>, t: &Tuple) -> bool
    requires pass { IsPassOf Q.Question.items Q.Question.size Q.Question.Fails store.now pass.old }
    ensures kept { IsPassOf Q.Question.items Q.Question.size Q.Question.Fails store.now pass.new }
    ensures further { Further store.now.facts.width pass.old.view pass.new.view }
    ensures covered { IsTrue result → SeenWithin
        (asked Q.Question.items Q.Question.size Q.Question.Fails store.now.facts) (prefix_of t.now) pass.new.view }
{
    store.look(pass, &prefix(t)).is_some()
}

// A tuple's items but the last.
fn prefix(t: &Tuple) -> Tuple
    ensures { result ≡ prefix_of t.now }
{
    let items = t.items();
    let chosen = prefix_of(items);
    match Tuple::from_items(chosen) {
        Some(prefix) => prefix,
        None => Tuple::empty(),
    }
}

// The items but the last.
fn prefix_of(items: &[u16]) -> &[u16]
    ensures { result.now ≡ prefix_of items.now }
{
    if items.is_empty() {
        return items;
    }
    &items[..items.len() - 1]
}

/// The tuple with a rank, where there is one.
pub(crate) fn tuple_at<Q: Query>(query: &Q, rank: u64) -> Tuple
    ensures at { IsAtRank (Q.Question.items query.now) (Q.Question.size query.now) rank result }
    ensures tuple { IsTuple (Q.Question.items query.now) (Q.Question.size query.now) result }
{
    let items = query.items();
    let size = query.size();
    if rank < count(items, size) {
        return unrank(items, size, rank);
    }
    Tuple::empty()
}

/// Works on the tuples with the ranks from `from` to before `to` of a range that the pass has open, and answers true;
/// or false where the table is full.
pub(crate) fn work_run<Q: Query, L: Ledger>(
    store: &Store<Q>,
    pass: &mut Pass<Q>,
    query: &Q,
    scratch: &mut Q::Scratch,
    range: Range,
    from: u64,
    to: u64,
    t: &mut Tuple,
    steps: &mut Steps<L>,
) -> bool
    requires pass { IsPassOf Q.Question.items Q.Question.size Q.Question.Fails store.now pass.old }
    requires query { store.now.facts.query.value ≡ query.now }
    requires scratch { Q.Fits query.now scratch.old }
    requires ranks { range.to ≤ full Q.Question.items Q.Question.size query.now }
    requires held { Has (range.from, range.to) pass.old.view.held }
    requires first { range.from ≤ from }
    requires some { from < to }
    requires last { to ≤ range.to }
    requires here { IsAtRank (Q.Question.items query.now) (Q.Question.size query.now) from t.old }
    requires tuple { IsTuple (Q.Question.items query.now) (Q.Question.size query.now) t.old }
    requires before { Done (asked Q.Question.items Q.Question.size Q.Question.Fails store.now.facts)
        range.from from pass.old.view }
    ensures kept { IsPassOf Q.Question.items Q.Question.size Q.Question.Fails store.now pass.new }
    ensures scratch { Q.Fits query.now scratch.new }
    ensures parts { pass.new.view.parts ≡ pass.old.view.parts }
    ensures held { pass.new.view.held ≡ pass.old.view.held }
    ensures cursor { pass.old.view.cursor ≤ pass.new.view.cursor }
    ensures here { IsTrue result → IsAtRank (Q.Question.items query.now) (Q.Question.size query.now) to t.new }
    ensures tuple { IsTuple (Q.Question.items query.now) (Q.Question.size query.now) t.new }
    ensures done { IsTrue result → Done (asked Q.Question.items Q.Question.size Q.Question.Fails store.now.facts)
        range.from to pass.new.view }
    ensures full { result ≡ false → IsTight
        (asked Q.Question.items Q.Question.size Q.Question.Fails store.now.facts) store.now.facts.width }
{
    let items = query.items();
    let size = query.size();
    for _rank in from..to {
        if let Work::Full = judge_one(store, pass, query, scratch, t, steps) {
            return false;
        }
        let _more = next(items, size, t);
    }
    true
}
