//! What one worker does: it claims blocks of ranks, works on their tuples and settles them.

ghost use Rattle.std.specs.Prelude.{◌≡◌, ℕ, ◌≤◌, [], IsTrue, false};
ghost use Rattle.cover_core.specs.Core.{Has};
ghost use Rattle.claim_store.specs.Rule.{asked, full, IsTight};
ghost use Rattle.claim_store.specs.Seen.{IsPassOf};
ghost use Rattle.check_workers.specs.Works.{Done, Served};

use crate::gate::Gate;
use crate::runs::{is_prefix_covered, run_end, tuple_at, work_run};
use claim_store::{Pass, Store};
use cover_core::Query;
use std::marker::Brand;
use std::sync::ledger::{Blank, Ledger};
use tuple_order::{Range, Steps, unrank};

/// Claims blocks until none is left, and answers false; or stops where the table is full. It has a counter of its own,
/// and its scratch lies where no other thread writes beside it.
pub(crate) fn serve<Q: Query, G: Gate>(
    store: &Store<Q>,
    query: &Q,
    gate: &G,
    block: u64,
    pass: Pass<Q>,
    scratch: Q::Scratch,
    worker: u16,
) -> (Pass<Q>, bool)
    requires pass { IsPassOf Q.Question.items Q.Question.size Q.Question.Fails store.now pass }
    requires idle { pass.view.held ≡ [] }
    requires query { store.now.facts.query.value ≡ query.now }
    requires scratch { Q.Fits query.now scratch }
    requires block { 1 ≤ block }
    ensures kept { IsPassOf Q.Question.items Q.Question.size Q.Question.Fails store.now result.0 }
    ensures parts { result.0.view.parts ≡ pass.view.parts }
    ensures served { Served (asked Q.Question.items Q.Question.size Q.Question.Fails store.now.facts)
        store.now.facts.width result.1 result.0.view }
{
    serve_counted::<Q, G, Brand>(
        store,
        query,
        gate,
        block,
        pass,
        scratch,
        worker,
        Blank::new(1),
    )
}

// The same, with what the counter is made from.
fn serve_counted<Q: Query, G: Gate, L: Ledger>(
    store: &Store<Q>,
    query: &Q,
    gate: &G,
    block: u64,
    mut pass: Pass<Q>,
    mut scratch: Q::Scratch,
    worker: u16,
    blank: Blank,
) -> (Pass<Q>, bool)
    requires name { blank.name ≡ L.name }
    requires parts { blank.parts ≡ L.parts }
    requires one { blank.parts ≡ 1 }
    requires pass { IsPassOf Q.Question.items Q.Question.size Q.Question.Fails store.now pass }
    requires idle { pass.view.held ≡ [] }
    requires query { store.now.facts.query.value ≡ query.now }
    requires scratch { Q.Fits query.now scratch }
    requires block { 1 ≤ block }
    ensures kept { IsPassOf Q.Question.items Q.Question.size Q.Question.Fails store.now result.0 }
    ensures parts { result.0.view.parts ≡ pass.view.parts }
    ensures served { Served (asked Q.Question.items Q.Question.size Q.Question.Fails store.now.facts)
        store.now.facts.width result.1 result.0.view }
{
    let (book, share) = blank.open::<L>();
    let mut steps = Steps::make(book, share);
    while let Some(range) = store.claim(&mut pass, block) {
        gate.at_block(worker, range.from);
        if !work_range(store, &mut pass, query, &mut scratch, range, &mut steps) {
            return (pass, true);
        }
        store.settle(&mut pass, range);
    }
    (pass, false)
}

// Works on the tuples of a range that the pass has open, run by run, and answers true; or false where the table is
// full.
fn work_range<Q: Query, L: Ledger>(
    store: &Store<Q>,
    pass: &mut Pass<Q>,
    query: &Q,
    scratch: &mut Q::Scratch,
    range: Range,
    steps: &mut Steps<L>,
) -> bool
    requires pass { IsPassOf Q.Question.items Q.Question.size Q.Question.Fails store.now pass.old }
    requires query { store.now.facts.query.value ≡ query.now }
    requires scratch { Q.Fits query.now scratch.old }
    requires ranks { range.to ≤ full Q.Question.items Q.Question.size query.now }
    requires held { Has (range.from, range.to) pass.old.view.held }
    ensures kept { IsPassOf Q.Question.items Q.Question.size Q.Question.Fails store.now pass.new }
    ensures scratch { Q.Fits query.now scratch.new }
    ensures parts { pass.new.view.parts ≡ pass.old.view.parts }
    ensures held { pass.new.view.held ≡ pass.old.view.held }
    ensures cursor { pass.old.view.cursor ≤ pass.new.view.cursor }
    ensures done { IsTrue result → Done (asked Q.Question.items Q.Question.size Q.Question.Fails store.now.facts)
        range.from range.to pass.new.view }
    ensures full { result ≡ false → IsTight
        (asked Q.Question.items Q.Question.size Q.Question.Fails store.now.facts) store.now.facts.width }
{
    let mut t = unrank(query.items(), query.size(), range.from);
    let mut rank = range.from;
    while rank < range.to {
        let to = run_end(query, &t, rank, range.to);
        if is_prefix_covered(store, pass, &t) {
            t = tuple_at(query, to);
        } else if !work_run(store, pass, query, scratch, range, rank, to, &mut t, steps) {
            return false;
        }
        rank = to;
    }
    true
}
