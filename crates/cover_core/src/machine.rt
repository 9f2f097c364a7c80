//! The machine that takes steps, one after another.

ghost use Rattle.std.specs.Prelude.{◌≡◌, ◌^◌, ℕ, ◌<◌, ◌≤◌, IfOk, length, slice_index_or, vec_len};
ghost use Rattle.tuple_model.specs.Tuples.{tuples};
ghost use Rattle.cover_core.specs.Core.{CoreOk, Has, question_of, total};
ghost use Rattle.cover_core.specs.Machine.{opening};
ghost use Rattle.cover_core.specs.Machines.{FewMoves, Takes, state_of};
ghost use Rattle.cover_core.specs.declared.state.View.{View as Seen};

use crate::conditions::{is_answered, is_held, may_store};
use crate::effects::{first_view, join, know, settle, split};
use crate::kind::{At, Kind};
use crate::query::Query;
use crate::rows::Numbers;
use crate::state::{State, View, Views};
use crate::taking::{claim, look_at, store, take_other};
use mask_bytes::OutOfMemory;
use std::alloc::Global;
use std::sync::ledger::Ledger;
use tuple_order::{Range, Steps, Tuple, count};

/// The store's cursor, its words and what each seat knows.
#[derive(Drop)]
pub(crate) struct Machine {
    pub(crate) cursor: u64,
    pub(crate) words: Vec<u64>,
    pub(crate) views: Vec<View>,
}

// A step that isn't allowed isn't taken, and the answer says whether it was. The query is asked where the step depends
// on it, and else only named by the clauses.
impl Machine {
    /// No rank is claimed, each of so many places is empty, and seat 0 has all parts.
    pub(crate) fn opening(alloc: Global, words: u32) -> Result<Machine, OutOfMemory>
        ensures { IfOk result (λ m. state_of m ≡ opening words) }
    {
        let mut views = Vec::new(alloc);
        views.push(first_view(alloc))?;
        Ok(Machine {
            cursor: 0,
            words: Vec::from_elem(alloc, 0, words as usize)?,
            views,
        })
    }

    /// The state that it is in.
    pub(crate) fn into_state(self) -> State
        ensures { result ≡ state_of self }
    {
        State {
            cursor: self.cursor,
            words: Numbers::from_vec(self.words),
            views: Views::from_vec(self.views),
        }
    }

    /// A seat takes a step, where it may; whether it did.
    pub(crate) fn step<Q: Query, L: Ledger>(
        &mut self,
        alloc: Global,
        query: &Q,
        scratch: &mut Q::Scratch,
        steps: &mut Steps<L>,
        number: u32,
        kind: &Kind,
    ) -> Result<bool, OutOfMemory>
        requires ok { CoreOk (question_of (Q.Question.items query.now)
            (Q.Question.size query.now) (Q.Question.Fails query.now)) (state_of self.old) }
        requires few { FewMoves (2 ^ 63) (state_of self.old) }
        requires width { (k : ℕ) × (vec_len self.old.words ≡ 2 ^ k) }
        requires narrow { vec_len self.old.words < 2 ^ 32 }
        requires scratch { Q.Fits query.now scratch.old }
        ensures scratch { Q.Fits query.now scratch.new }
        ensures takes { IfOk result (λ taken. Takes (question_of (Q.Question.items query.now)
            (Q.Question.size query.now) (Q.Question.Fails query.now))
            (state_of self.old) number kind.now taken (state_of self.new)) }
    {
        let seat = number as usize;
        if self.views.len() <= seat {
            return Ok(false);
        }
        if self.views[seat].parts == 0 {
            return Ok(false);
        }
        match kind {
            Kind::Split { parts } => self.split_step(alloc, query, seat, *parts),
            Kind::Join { from } => self.join_step(alloc, query, seat, *from),
            Kind::Claim { to } => self.claim_step(query, seat, *to),
            Kind::Look(at) => self.look_step(query, seat, *at),
            Kind::Publish { place, tuple } => self.publish_step(
                query, scratch, steps, seat, *place, tuple,
            ),
            Kind::Settle { range } => self.settle_step(query, scratch, steps, seat, *range),
        }
    }

    // The seat gives parts to a new one.
    fn split_step<Q: Query>(
        &mut self,
        alloc: Global,
        _query: &Q,
        seat: usize,
        parts: u16,
    ) -> Result<bool, OutOfMemory>
        requires seat { seat < vec_len self.old.views }
        requires unspent { (d : Seen) → 0 < (slice_index_or self.old.views.items seat d).parts }
        requires few { (d : Seen) → (slice_index_or self.old.views.items seat d).moves < 2 ^ 63 }
        ensures { IfOk result (λ taken. Takes (question_of (Q.Question.items _query.now)
            (Q.Question.size _query.now) (Q.Question.Fails _query.now))
            (state_of self.old) seat (Kind.Split parts) taken (state_of self.new)) }
    {
        if parts == 0 || self.views[seat].parts <= parts {
            return Ok(false);
        }
        let other = split(alloc, &mut self.views[seat], parts)?;
        self.views.push(other)?;
        Ok(true)
    }

    // The seat takes in another.
    fn join_step<Q: Query>(
        &mut self,
        alloc: Global,
        _query: &Q,
        seat: usize,
        from: u32,
    ) -> Result<bool, OutOfMemory>
        requires seat { seat < vec_len self.old.views }
        requires unspent { (d : Seen) → 0 < (slice_index_or self.old.views.items seat d).parts }
        requires few { (d : Seen) → (slice_index_or self.old.views.items seat d).moves < 2 ^ 63 }
        requires parts { total (λ v. v.parts) self.old.views.items ≡ 64 }
        ensures { IfOk result (λ taken. Takes (question_of (Q.Question.items _query.now)
            (Q.Question.size _query.now) (Q.Question.Fails _query.now))
            (state_of self.old) seat (Kind.Join from) taken (state_of self.new)) }
    {
        let other = from as usize;
        if other == seat || self.views.len() <= other {
            return Ok(false);
        }
        if self.views[other].parts == 0 {
            return Ok(false);
        }
        let taken = take_other(alloc, &mut self.views, other);
        join(&mut self.views[seat], &taken)?;
        Ok(true)
    }

    // The seat moves the cursor on.
    fn claim_step<Q: Query>(&mut self, query: &Q, seat: usize, to: u64) -> Result<bool, OutOfMemory>
        requires seat { seat < vec_len self.old.views }
        requires unspent { (d : Seen) → 0 < (slice_index_or self.old.views.items seat d).parts }
        requires few { (d : Seen) → (slice_index_or self.old.views.items seat d).moves < 2 ^ 63 }
        ensures { IfOk result (λ taken. Takes (question_of (Q.Question.items query.now)
            (Q.Question.size query.now) (Q.Question.Fails query.now))
            (state_of self.old) seat (Kind.Claim to) taken (state_of self.new)) }
    {
        let total = count(query.items(), query.size());
        if to <= self.views[seat].cursor || total < to {
            return Ok(false);
        }
        claim(&mut self.views[seat], &mut self.cursor, to)?;
        Ok(true)
    }

    // The seat loads a word.
    fn look_step<Q: Query>(&mut self, _query: &Q, seat: usize, at: At) -> Result<bool, OutOfMemory>
        requires seat { seat < vec_len self.old.views }
        requires unspent { (d : Seen) → 0 < (slice_index_or self.old.views.items seat d).parts }
        requires few { (d : Seen) → (slice_index_or self.old.views.items seat d).moves < 2 ^ 63 }
        ensures { IfOk result (λ taken. Takes (question_of (Q.Question.items _query.now)
            (Q.Question.size _query.now) (Q.Question.Fails _query.now))
            (state_of self.old) seat (Kind.Look at) taken (state_of self.new)) }
    {
        match at {
            At::Cursor => know(&mut self.views[seat], self.cursor),
            At::Place(place) => {
                if self.words.len() <= place as usize {
                    return Ok(false);
                }
                look_at(&mut self.views[seat], &self.words, place)?;
            }
        }
        Ok(true)
    }

    // The seat stores a tuple.
    fn publish_step<Q: Query, L: Ledger>(
        &mut self,
        query: &Q,
        scratch: &mut Q::Scratch,
        steps: &mut Steps<L>,
        seat: usize,
        place: u32,
        tuple: &Tuple,
    ) -> Result<bool, OutOfMemory>
        requires seat { seat < vec_len self.old.views }
        requires unspent { (d : Seen) → 0 < (slice_index_or self.old.views.items seat d).parts }
        requires few { (d : Seen) → (slice_index_or self.old.views.items seat d).moves < 2 ^ 63 }
        requires width { (k : ℕ) × (vec_len self.old.words ≡ 2 ^ k) }
        requires narrow { vec_len self.old.words < 2 ^ 32 }
        requires scratch { Q.Fits query.now scratch.old }
        ensures scratch { Q.Fits query.now scratch.new }
        ensures takes { IfOk result (λ taken. Takes (question_of (Q.Question.items query.now)
            (Q.Question.size query.now) (Q.Question.Fails query.now))
            (state_of self.old) seat (Kind.Publish place tuple.now) taken (state_of self.new)) }
    {
        let width = self.words.len() as u32;
        if !may_store(
            query,
            scratch,
            steps,
            width,
            &self.views[seat],
            place,
            tuple,
        ) {
            return Ok(false);
        }
        store(&mut self.views[seat], &mut self.words, place, tuple.code())?;
        Ok(true)
    }

    // The seat gives up a range.
    fn settle_step<Q: Query, L: Ledger>(
        &mut self,
        query: &Q,
        scratch: &mut Q::Scratch,
        steps: &mut Steps<L>,
        seat: usize,
        range: Range,
    ) -> Result<bool, OutOfMemory>
        requires seat { seat < vec_len self.old.views }
        requires unspent { (d : Seen) → 0 < (slice_index_or self.old.views.items seat d).parts }
        requires few { (d : Seen) → (slice_index_or self.old.views.items seat d).moves < 2 ^ 63 }
        requires ranks { (d : Seen) (x : ℕ × ℕ) → Has x (slice_index_or self.old.views.items seat d).held →
            x.1 ≤ length (tuples (Q.Question.items query.now) (Q.Question.size query.now)) }
        requires scratch { Q.Fits query.now scratch.old }
        ensures scratch { Q.Fits query.now scratch.new }
        ensures takes { IfOk result (λ taken. Takes (question_of (Q.Question.items query.now)
            (Q.Question.size query.now) (Q.Question.Fails query.now))
            (state_of self.old) seat (Kind.Settle range) taken (state_of self.new)) }
    {
        let ranks = (range.from, range.to);
        if !is_held(&self.views[seat], ranks) {
            return Ok(false);
        }
        if !is_answered(query, scratch, steps, &self.views[seat], ranks) {
            return Ok(false);
        }
        settle(&mut self.views[seat], ranks, self.cursor);
        Ok(true)
    }
}
