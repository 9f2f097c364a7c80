//! The work on one tuple.

ghost use Rattle.std.specs.Prelude.{◌≡◌, ℕ};
ghost use Rattle.tuple_model.specs.Tuples.{IsTuple};
ghost use Rattle.tuple_order.specs.Codes.{code_of};
ghost use Rattle.cover_core.specs.Effects.{Open};
ghost use Rattle.claim_store.specs.Rule.{asked};
ghost use Rattle.claim_store.specs.Seen.{IsPassOf};
ghost use Rattle.check_workers.specs.Works.{Worked, Came, Counted};

use claim_store::{Insert, Pass, Store};
use cover_core::Query;
use std::sync::ledger::Ledger;
use tuple_order::{Steps, Tuple};

/// What came of one tuple.
#[derive(Clone, Copy, Drop)]
pub enum Work {
    /// This subset of it was stored.
    Covered(Tuple),
    /// It doesn't fail.
    Clean,
    /// It fails, and is stored.
    Bad,
    /// It fails, and found no room.
    Full,
}

/// Looks for a stored subset of a tuple. Where there is none, it judges the tuple, and stores it where it fails. So a
/// tuple is judged only where each of its subsets was absent at some moment of this call.
pub fn work_one<Q: Query, L: Ledger>(
    store: &Store<Q>,
    pass: &mut Pass<Q>,
    query: &Q,
    scratch: &mut Q::Scratch,
    t: &Tuple,
    steps: &mut Steps<L>,
) -> Work
    requires pass { IsPassOf Q.Question.items Q.Question.size Q.Question.Fails store.now pass.old }
    requires query { store.now.facts.query.value ≡ query.now }
    requires scratch { Q.Fits query.now scratch.old }
    requires tuple { IsTuple (Q.Question.items query.now) (Q.Question.size query.now) t.now }
    requires open { Open (asked Q.Question.items Q.Question.size Q.Question.Fails store.now.facts) t.now pass.old.view }
    ensures kept { IsPassOf Q.Question.items Q.Question.size Q.Question.Fails store.now pass.new }
    ensures scratch { Q.Fits query.now scratch.new }
    ensures worked { Worked store.now.facts.width (code_of t.now) pass.old.view pass.new.view }
    ensures came { Came (asked Q.Question.items Q.Question.size Q.Question.Fails store.now.facts)
        store.now.facts.width t.now pass.old.view pass.new.view result }
    ensures counted { Counted store.now.facts.width t.now pass.old.view pass.new.view steps.old steps.new }
{
    if let Some(s) = store.look(pass, t) {
        return Work::Covered(s);
    }
    if !query.judge(scratch, t, steps) {
        return Work::Clean;
    }
    store_failing(store, pass, t)
}

/// The same, but it judges first, which is quicker where few tuples fail.
pub(crate) fn judge_one<Q: Query, L: Ledger>(
    store: &Store<Q>,
    pass: &mut Pass<Q>,
    query: &Q,
    scratch: &mut Q::Scratch,
    t: &Tuple,
    steps: &mut Steps<L>,
) -> Work
    requires pass { IsPassOf Q.Question.items Q.Question.size Q.Question.Fails store.now pass.old }
    requires query { store.now.facts.query.value ≡ query.now }
    requires scratch { Q.Fits query.now scratch.old }
    requires tuple { IsTuple (Q.Question.items query.now) (Q.Question.size query.now) t.now }
    requires open { Open (asked Q.Question.items Q.Question.size Q.Question.Fails store.now.facts) t.now pass.old.view }
    ensures kept { IsPassOf Q.Question.items Q.Question.size Q.Question.Fails store.now pass.new }
    ensures scratch { Q.Fits query.now scratch.new }
    ensures worked { Worked store.now.facts.width (code_of t.now) pass.old.view pass.new.view }
    ensures came { Came (asked Q.Question.items Q.Question.size Q.Question.Fails store.now.facts)
        store.now.facts.width t.now pass.old.view pass.new.view result }
{
    if !query.judge(scratch, t, steps) {
        return Work::Clean;
    }
    if let Some(s) = store.look(pass, t) {
        return Work::Covered(s);
    }
    store_failing(store, pass, t)
}

// Stores a failing tuple.
fn store_failing<Q: Query>(store: &Store<Q>, pass: &mut Pass<Q>, t: &Tuple) -> Work
    requires pass { IsPassOf Q.Question.items Q.Question.size Q.Question.Fails store.now pass.old }
    requires fails { Q.Question.Fails store.now.facts.query.value t.now }
    requires open { Open (asked Q.Question.items Q.Question.size Q.Question.Fails store.now.facts) t.now pass.old.view }
    ensures kept { IsPassOf Q.Question.items Q.Question.size Q.Question.Fails store.now pass.new }
    ensures worked { Worked store.now.facts.width (code_of t.now) pass.old.view pass.new.view }
    ensures came { Came (asked Q.Question.items Q.Question.size Q.Question.Fails store.now.facts)
        store.now.facts.width t.now pass.old.view pass.new.view result }
{
    match store.insert(pass, *t) {
        Insert::Kept => Work::Bad,
        Insert::Already => Work::Bad,
        Insert::Full => Work::Full,
    }
}
