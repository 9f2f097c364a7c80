//! The machine run on a list of steps.

ghost use Rattle.std.specs.Prelude.{◌≡◌, ◌↔◌, ℕ, ◌^◌, ◌<◌, ◌≤◌, List, IfOk, length};
ghost use Rattle.tuple_model.specs.Tuples.{IsTuple};
ghost use Rattle.tuple_model.specs.Minimal.{IsMinimal};
ghost use Rattle.cover_core.specs.Core.{CoreOk, IsLeast, Quiet, question_of};
ghost use Rattle.cover_core.specs.Replays.{Replays};
ghost use Rattle.cover_core.specs.declared.replaying.CoreError.TheVariants.{OutOfMemory as NoMemory};

use crate::kind::Kind;
use crate::machine::Machine;
use crate::query::Query;
use crate::state::State;
use mask_bytes::OutOfMemory;
use std::alloc::Global;
use std::marker::Brand;
use std::sync::ledger::{Blank, Ledger};
use tuple_order::Steps;

/// Why a list of steps has no end.
#[derive(Clone, Copy, Debug, PartialEq, Eq, Drop)]
pub enum CoreError {
    /// The step with this number, from 0, is the first that isn't allowed.
    NotAllowed(u32),
    /// Memory was not found.
    OutOfMemory,
}

impl From<OutOfMemory> for CoreError {
    ghost from_gives = { λ _ error. error ≡ NoMemory };

    fn from(_error: OutOfMemory) -> CoreError {
        CoreError::OutOfMemory
    }
}

/// Runs the steps, each by the numbered seat, from the state in which nothing is claimed and each of so many places is
/// empty. It judges the tuples that are published, and those of the ranges that are settled.
pub fn replay<Q: Query>(
    alloc: Global,
    query: &Q,
    words: u32,
    kinds: &[(u32, Kind)],
) -> Result<State, CoreError>
    requires least { 4 ≤ words }
    requires most { words ≤ 67108864 }
    requires power { (k : ℕ) × (words ≡ 2 ^ k) }
    requires steps { length kinds.now < 2 ^ 32 }
    ensures replays { Replays (question_of (Q.Question.items query.now) (Q.Question.size query.now)
        (Q.Question.Fails query.now)) words kinds.now result }
    ensures ok { IfOk result (CoreOk (question_of (Q.Question.items query.now) (Q.Question.size query.now)
        (Q.Question.Fails query.now))) }
    ensures answer { IfOk result (λ end. Quiet (question_of (Q.Question.items query.now) (Q.Question.size query.now)
        (Q.Question.Fails query.now)) end → (t : List ℕ) →
        IsTuple (Q.Question.items query.now) (Q.Question.size query.now) t →
        IsLeast end.words t ↔ IsMinimal (Q.Question.Fails query.now) t) }
{
    let _items = query.items();
    let _size = query.size();
    replay_counted::<Q, Brand>(alloc, query, words, kinds, Blank::new(1))
}

// The tuples that are judged are counted by a counter of its own.
fn replay_counted<Q: Query, L: Ledger>(
    alloc: Global,
    query: &Q,
    words: u32,
    kinds: &[(u32, Kind)],
    blank: Blank,
) -> Result<State, CoreError>
    requires name { blank.name ≡ L.name }
    requires parts { blank.parts ≡ L.parts }
    requires one { blank.parts ≡ 1 }
    requires power { (k : ℕ) × (words ≡ 2 ^ k) }
    requires steps { length kinds.now < 2 ^ 32 }
    ensures replays { Replays (question_of (Q.Question.items query.now) (Q.Question.size query.now)
        (Q.Question.Fails query.now)) words kinds.now result }
    ensures ok { IfOk result (CoreOk (question_of (Q.Question.items query.now) (Q.Question.size query.now)
        (Q.Question.Fails query.now))) }
{
    let (book, share) = blank.open::<L>();
    let mut steps = Steps::make(book, share);
    let mut scratch = query.scratch(alloc)?;
    let mut machine = Machine::opening(alloc, words)?;
    for index in 0..kinds.len() {
        let (seat, kind) = &kinds[index];
        if !machine.step(alloc, query, &mut scratch, &mut steps, *seat, kind)? {
            return Err(CoreError::NotAllowed(index as u32));
        }
    }
    Ok(machine.into_state())
}
