//! The minimal failing tuples, found by workers over one store, in rounds.

ghost use Rattle.std.specs.Prelude.{◌≡◌, ℕ, ◌+◌, ◌^◌, ◌<◌, ◌≤◌, [], All, IfOk, IsSome, Some, length};
ghost use Rattle.std.specs.Thread.{IsSync};
ghost use Rattle.cover_core.specs.Core.{question_of};
ghost use Rattle.claim_store.specs.Rule.{asked, full};
ghost use Rattle.claim_store.specs.Seen.{IsPassOf};
ghost use Rattle.check_workers.specs.Works.{IsFound, IsLeastPower, IsSomeWhere, RoundEnds, Served};

use crate::gate::Gate;
use crate::serve::serve;
use claim_store::{Closed, Pass, Store};
use cover_core::Query;
use mask_bytes::OutOfMemory;
use std::alloc::Global;
use std::thread::{Threads, join};
use tuple_order::count;

/// The minimal failing tuples of a query. The workers claim blocks of `block` ranks, one after another, and share what
/// they find; each calls the gate after each claim. They work in threads of their own, as far as threads can be
/// started, and at most as many work as there are blocks. They work in rounds: where the table becomes full, another
/// round follows, with an empty table of four times as many words, up to the cap, at which it can't become full.
pub fn minimal<R: Threads + Sync, Q: Query, G: Gate>(
    rt: &R,
    alloc: Global,
    query: &Q,
    workers: u16,
    block: u64,
    first_words: u32,
    gate: &G,
) -> Result<Closed, OutOfMemory>
    requires some_workers { 1 ≤ workers }
    requires workers { workers ≤ 64 }
    requires block { 1 ≤ block }
    requires some_words { 4 ≤ first_words }
    requires words { first_words ≤ 67108864 }
    requires ranks { full Q.Question.items Q.Question.size query.now ≤ 67108864 }
    ensures { IfOk result (λ closed. IsFound (question_of (Q.Question.items query.now) (Q.Question.size query.now)
        (Q.Question.Fails query.now)) first_words closed) }
{
    let ranks = count(query.items(), query.size());
    let working = u64::from(workers).min(ranks.div_ceil(block)) as u16;
    let cap = least_power((ranks as u32).max(4));
    let mut words = least_power(first_words).min(cap);
    loop {
        if let Some(closed) = round(rt, alloc, query, working, block, words, gate)? {
            return Ok(closed);
        }
        words = (4 * words).min(cap);
    }
}

// The least power of two that is at least so much.
fn least_power(n: u32) -> u32
    requires { n ≤ 67108864 }
    ensures power { IsLeastPower n result }
    ensures small { result ≤ 67108864 }
{
    let mut power = 1;
    while power < n {
        power *= 2;
    }
    power
}

// What the workers find with a table of so many words; none where it became full.
fn round<R: Threads + Sync, Q: Query, G: Gate>(
    rt: &R,
    alloc: Global,
    query: &Q,
    workers: u16,
    block: u64,
    words: u32,
    gate: &G,
) -> Result<Option<Closed>, OutOfMemory>
    requires some_workers { 1 ≤ workers }
    requires workers { workers ≤ 64 }
    requires block { 1 ≤ block }
    requires least { 4 ≤ words }
    requires power { (k : ℕ) × (words ≡ 2 ^ k) }
    ensures { IfOk result (RoundEnds (question_of (Q.Question.items query.now) (Q.Question.size query.now)
        (Q.Question.Fails query.now)) words) }
{
    let mut scratches = scratches(alloc, query, workers)?;
    let (store, pass) = Store::open(alloc, query, words)?;
    let (pass, met_full) = served(
        rt,
        &store,
        query,
        gate,
        block,
        pass,
        scratches.as_mut_slice(),
        0,
    );
    if met_full {
        return Ok(None);
    }
    Ok(Some(store.close(alloc, pass)?))
}

// A scratch for each worker, so that none takes memory. Each worker takes its own out.
fn scratches<Q: Query>(
    alloc: Global,
    query: &Q,
    workers: u16,
) -> Result<Vec<Option<Q::Scratch>>, OutOfMemory>
    ensures fit { IfOk result (λ scratches. All (IsSomeWhere (Q.Fits query.now)) scratches.items) }
    ensures many { IfOk result (λ scratches. length scratches.items ≡ workers) }
{
    let mut scratches = Vec::new(alloc);
    for _ in 0..workers {
        scratches.push(Some(query.scratch(alloc)?))?;
    }
    Ok(scratches)
}

// The workers of these scratches, numbered from `first`. One alone works in this thread.
#[cycle(workers)]
fn served<R: Threads + Sync, Q: Query, G: Gate>(
    rt: &R,
    store: &Store<Q>,
    query: &Q,
    gate: &G,
    block: u64,
    pass: Pass<Q>,
    scratches: &mut [Option<Q::Scratch>],
    first: u16,
) -> (Pass<Q>, bool)
    requires pass { IsPassOf Q.Question.items Q.Question.size Q.Question.Fails store.now pass }
    requires idle { pass.view.held ≡ [] }
    requires query { store.now.facts.query.value ≡ query.now }
    requires fit { All (IsSomeWhere (Q.Fits query.now)) scratches.old }
    requires some { 0 < length scratches.old }
    requires parts { length scratches.old ≤ pass.view.parts }
    requires numbers { length scratches.old + first ≤ 64 }
    requires block { 1 ≤ block }
    ensures kept { IsPassOf Q.Question.items Q.Question.size Q.Question.Fails store.now result.0 }
    ensures parts { result.0.view.parts ≡ pass.view.parts }
    ensures served { Served (asked Q.Question.items Q.Question.size Q.Question.Fails store.now.facts)
        store.now.facts.width result.1 result.0.view }
{
    if scratches.len() == 1 {
        let scratch = taken(&mut scratches[0]);
        return serve(store, query, gate, block, pass, scratch, first);
    }
    started(rt, store, query, gate, block, pass, scratches, first)
}

// The same with each worker in a thread of its own, or in this one where none can be started. This thread starts them
// and waits: a system may put a new thread on the processor of the one that starts it, which is then free.
#[cycle(workers)]
fn started<R: Threads + Sync, Q: Query, G: Gate>(
    rt: &R,
    store: &Store<Q>,
    query: &Q,
    gate: &G,
    block: u64,
    mut pass: Pass<Q>,
    scratches: &mut [Option<Q::Scratch>],
    first: u16,
) -> (Pass<Q>, bool)
    requires pass { IsPassOf Q.Question.items Q.Question.size Q.Question.Fails store.now pass }
    requires idle { pass.view.held ≡ [] }
    requires query { store.now.facts.query.value ≡ query.now }
    requires fit { All (IsSomeWhere (Q.Fits query.now)) scratches.old }
    requires some { 0 < length scratches.old }
    requires parts { length scratches.old ≤ pass.view.parts }
    requires numbers { length scratches.old + first ≤ 64 }
    requires block { 1 ≤ block }
    ensures kept { IsPassOf Q.Question.items Q.Question.size Q.Question.Fails store.now result.0 }
    ensures parts { result.0.view.parts ≡ pass.view.parts }
    ensures served { Served (asked Q.Question.items Q.Question.size Q.Question.Fails store.now.facts)
        store.now.facts.width result.1 result.0.view }
{
    if scratches.len() == 1 {
        let scratch = taken(&mut scratches[0]);
        return served_in_thread(rt, store, query, gate, block, pass, scratch, first);
    }
    let few = in_new_thread(scratches.len());
    let rest = scratches.len() - few;
    let next = first + few as u16;
    let rest_pass = store.split(&mut pass, rest as u16);
    let (low, high) = scratches.split_at_mut(few);
    let (one, other) = join(
        rt,
        || -> (Pass<Q>, bool)
            requires sync { IsSync R.row × IsSync Q.row × IsSync G.row }
            requires pass { IsPassOf Q.Question.items Q.Question.size Q.Question.Fails store.now pass }
            requires idle { pass.view.held ≡ [] }
            requires query { store.now.facts.query.value ≡ query.now }
            requires fit { All (IsSomeWhere (Q.Fits query.now)) low.now }
            requires some { 0 < length low.now }
            requires parts { length low.now ≤ pass.view.parts }
            requires numbers { length low.now + first ≤ 64 }
            requires block { 1 ≤ block }
            ensures kept { IsPassOf Q.Question.items Q.Question.size Q.Question.Fails store.entry.now result.0 }
            ensures parts { result.0.view.parts ≡ pass.view.parts }
            ensures served { Served (asked Q.Question.items Q.Question.size Q.Question.Fails store.entry.now.facts)
                store.entry.now.facts.width result.1 result.0.view }
        { served(rt, store, query, gate, block, pass, low, first) },
        || -> (Pass<Q>, bool)
            requires sync { IsSync R.row × IsSync Q.row × IsSync G.row }
            requires pass { IsPassOf Q.Question.items Q.Question.size Q.Question.Fails store.now rest_pass }
            requires idle { rest_pass.view.held ≡ [] }
            requires query { store.now.facts.query.value ≡ query.now }
            requires fit { All (IsSomeWhere (Q.Fits query.now)) high.now }
            requires some { 0 < length high.now }
            requires parts { length high.now ≤ rest_pass.view.parts }
            requires numbers { length high.now + next ≤ 64 }
            requires block { 1 ≤ block }
            ensures kept { IsPassOf Q.Question.items Q.Question.size Q.Question.Fails store.entry.now result.0 }
            ensures parts { result.0.view.parts ≡ rest_pass.view.parts }
            ensures served { Served (asked Q.Question.items Q.Question.size Q.Question.Fails store.entry.now.facts)
                store.entry.now.facts.width result.1 result.0.view }
        { started(rt, store, query, gate, block, rest_pass, high, next) },
    );
    together(store, one, other)
}

// Two passes as one, and whether either met a full table.
fn together<Q: Query>(
    store: &Store<Q>,
    one: (Pass<Q>, bool),
    other: (Pass<Q>, bool),
) -> (Pass<Q>, bool)
    requires one { IsPassOf Q.Question.items Q.Question.size Q.Question.Fails store.now one.0 }
    requires other { IsPassOf Q.Question.items Q.Question.size Q.Question.Fails store.now other.0 }
    requires one_served { Served (asked Q.Question.items Q.Question.size Q.Question.Fails store.now.facts)
        store.now.facts.width one.1 one.0.view }
    requires other_served { Served (asked Q.Question.items Q.Question.size Q.Question.Fails store.now.facts)
        store.now.facts.width other.1 other.0.view }
    ensures kept { IsPassOf Q.Question.items Q.Question.size Q.Question.Fails store.now result.0 }
    ensures parts { result.0.view.parts ≡ one.0.view.parts + other.0.view.parts }
    ensures served { Served (asked Q.Question.items Q.Question.size Q.Question.Fails store.now.facts)
        store.now.facts.width result.1 result.0.view }
{
    let (mut whole, one_full) = one;
    let (back, other_full) = other;
    store.join(&mut whole, back);
    (whole, one_full || other_full)
}

// One worker in a new thread, for which this one waits.
fn served_in_thread<R: Threads + Sync, Q: Query, G: Gate>(
    rt: &R,
    store: &Store<Q>,
    query: &Q,
    gate: &G,
    block: u64,
    pass: Pass<Q>,
    scratch: Q::Scratch,
    worker: u16,
) -> (Pass<Q>, bool)
    requires pass { IsPassOf Q.Question.items Q.Question.size Q.Question.Fails store.now pass }
    requires idle { pass.view.held ≡ [] }
    requires query { store.now.facts.query.value ≡ query.now }
    requires scratch { Q.Fits query.now scratch }
    requires block { 1 ≤ block }
    ensures kept { IsPassOf Q.Question.items Q.Question.size Q.Question.Fails store.now result.0 }
    ensures parts { result.0.view.parts ≡ pass.view.parts }
    ensures served { Served (asked Q.Question.items Q.Question.size Q.Question.Fails store.now.facts)
        store.now.facts.width result.1 result.0.view }
{
    let (served, _none) = join(
        rt,
        || -> (Pass<Q>, bool)
            requires sync { IsSync Q.row × IsSync G.row }
            requires pass { IsPassOf Q.Question.items Q.Question.size Q.Question.Fails store.now pass }
            requires idle { pass.view.held ≡ [] }
            requires query { store.now.facts.query.value ≡ query.now }
            requires scratch { Q.Fits query.now scratch }
            requires block { 1 ≤ block }
            ensures kept { IsPassOf Q.Question.items Q.Question.size Q.Question.Fails store.entry.now result.0 }
            ensures parts { result.0.view.parts ≡ pass.view.parts }
            ensures served { Served (asked Q.Question.items Q.Question.size Q.Question.Fails store.entry.now.facts)
                store.entry.now.facts.width result.1 result.0.view }
        { serve(store, query, gate, block, pass, scratch, worker) },
        || {},
    );
    served
}

// How many of so many workers begin in a new thread. One thread starts a few, one by one, since a system puts each on a
// processor of its own, where those that two threads start at once may share one for some milliseconds.
fn in_new_thread(workers: usize) -> usize
    requires { 1 < workers }
    ensures some { 0 < result }
    ensures fewer { result < workers }
{
    if workers <= 8 { 1 } else { workers / 2 }
}

// What is there, which leaves the place.
fn taken<S>(place: &mut Option<S>) -> S
    requires { IsSome place.old }
    ensures { place.old ≡ Some result }
{
    place.take().unwrap()
}
