//! The store, and its ranks: how they are claimed and given up.

ghost use Rattle.std.specs.Prelude.{◌≡◌, ◌≢◌, ℕ, ◌+◌, ◌*◌, ◌^◌, ◌<◌, ◌≤◌, min, IfSome, IfNone, IfOk};
ghost use Rattle.cover_core.specs.Core.{Has};
ghost use Rattle.cover_core.specs.Effects.{knows, opens, settles, first_view, Answered};
ghost use Rattle.claim_store.specs.Rule.{asked, full};
ghost use Rattle.claim_store.specs.Seen.{FoundTotal, IsPassOf, IsSeatOf, Opened};

use crate::pass::Pass;
use crate::rule::{Claim, Doing, Facts, Rule, SeeCursor, Settle};
use atomic_table::Table;
use cover_core::Query;
use mask_bytes::OutOfMemory;
use std::alloc::Global;
use std::marker::Model;
use std::snapshot::Snapshot;
use tuple_order::{Range, count};

/// A shared store of the failing tuples of a query, which several threads use at once without a lock. Contracts see its
/// query and its number of words.
#[derive(Drop)]
pub struct Store<Q: Query> {
    pub(crate) table: Table<(u64, u64), Doing<Q>, Facts<Q>, Rule<Q>, Global>,
    // How many tuples the query has.
    pub(crate) total: u64,
    // How many words the table has.
    pub(crate) width: usize,
    // A code's home is its product with a constant, shifted right by this.
    pub(crate) shift: u32,
}

impl<Q: Query> Model for Store<Q> {
    ghost use Rattle.claim_store.specs.Seen.{StoreSeen, IsStore};

    ghost Value = { StoreSeen Q };

    ghost view = { λ s. record { facts = s.table.shared.key; table = s.table.shared.table_id } };

    ghost invariant = { λ s. IsStore Q.Question.items Q.Question.size s.table.shared.key s.table.shared.table_id
        s.total s.width s.shift };
}

impl<Q: Query> Store<Q> {
    /// Makes an empty store with so many words, a power of two, and the pass that has all 64 parts. The words are
    /// written twice, so twice the table's memory is taken for a while.
    pub fn open(alloc: Global, query: &Q, words: u32) -> Result<(Store<Q>, Pass<Q>), OutOfMemory>
        requires least { 4 ≤ words }
        requires power { (k : ℕ) × (words ≡ 2 ^ k) }
        ensures store { IfOk result (λ r. (r.0.facts.query.value ≡ query.now) × (r.0.facts.width ≡ words)) }
        ensures pass { IfOk result (λ r. IsPassOf Q.Question.items Q.Question.size Q.Question.Fails r.0 r.1) }
        ensures view { IfOk result (λ r. r.1.view ≡ first_view) }
    {
        let width = words as usize;
        let row = Vec::from_elem(alloc, 0u64, width + 1)?;
        let facts = Facts {
            query: Snapshot::of(query),
            width,
        };
        let (table, seat) = Table::of_words(alloc, row.as_slice(), &facts)?;
        let total = count(query.items(), query.size());
        let shift = shift_of(words);
        Ok((
            Store {
                table,
                total,
                width,
                shift,
            },
            Pass { seat },
        ))
    }

    /// Claims the next ranks that nobody claimed, at most so many, as a range that the pass has open; none where it
    /// finds that all are claimed.
    pub fn claim(&self, pass: &mut Pass<Q>, at_most: u64) -> Option<Range>
        requires pass { IsPassOf Q.Question.items Q.Question.size Q.Question.Fails self.now pass.old }
        requires some { 1 ≤ at_most }
        ensures kept { IsPassOf Q.Question.items Q.Question.size Q.Question.Fails self.now pass.new }
        ensures claimed { IfSome result (λ range. Opened pass.old.view pass.new.view (range.from, range.to)) }
        ensures to { IfSome result (λ range. range.to ≡
            min (range.from + at_most) (full Q.Question.items Q.Question.size self.now.facts.query.value)) }
        ensures none { IfNone result (FoundTotal
            (full Q.Question.items Q.Question.size self.now.facts.query.value) pass.old.view pass.new.view) }
    {
        let mut cursor = self.see_cursor(pass);
        while cursor < self.total {
            let to = cursor + at_most.min(self.total - cursor);
            let found = self.try_claim(pass, cursor, to);
            if found == cursor {
                return Some(Range { from: cursor, to });
            }
            cursor = found;
        }
        None
    }

    // Loads the cursor.
    pub(crate) fn see_cursor(&self, pass: &mut Pass<Q>) -> u64
        requires { IsSeatOf self.now pass.old }
        ensures kept { IsPassOf Q.Question.items Q.Question.size Q.Question.Fails self.now pass.new }
        ensures view { pass.new.view ≡ knows result pass.old.view }
        ensures before { pass.old.view.cursor ≤ result }
        ensures most { result ≤ full Q.Question.items Q.Question.size self.now.facts.query.value }
    {
        self.table.shared.load::<SeeCursor>(&mut pass.seat, 0)
    }

    // Moves the cursor from where the pass saw it, unless it has moved since, and answers where it was.
    fn try_claim(&self, pass: &mut Pass<Q>, from: u64, to: u64) -> u64
        requires pass { IsPassOf Q.Question.items Q.Question.size Q.Question.Fails self.now pass.old }
        requires known { pass.old.view.cursor ≡ from }
        requires range { from < to }
        requires within { to ≤ full Q.Question.items Q.Question.size self.now.facts.query.value }
        ensures kept { IsPassOf Q.Question.items Q.Question.size Q.Question.Fails self.now pass.new }
        ensures before { from ≤ result }
        ensures most { result ≤ full Q.Question.items Q.Question.size self.now.facts.query.value }
        ensures claimed { result ≡ from → pass.new.view ≡ opens to pass.old.view }
        ensures missed { result ≢ from → pass.new.view ≡ knows result pass.old.view }
    {
        self.table
            .shared
            .compare_exchange::<Claim>(&mut pass.seat, 0, from, to)
    }

    /// Gives up an open range, of which the pass has seen a subset of each failing tuple.
    pub fn settle(&self, pass: &mut Pass<Q>, range: Range)
        requires pass { IsPassOf Q.Question.items Q.Question.size Q.Question.Fails self.now pass.old }
        requires held { Has (range.from, range.to) pass.old.view.held }
        requires answered { Answered (asked Q.Question.items Q.Question.size Q.Question.Fails self.now.facts)
            (range.from, range.to) pass.old.view }
        ensures kept { IsPassOf Q.Question.items Q.Question.size Q.Question.Fails self.now pass.new }
        ensures closed { Has (range.from, range.to) pass.new.view.held → ⊥ }
        ensures view { (cursor : ℕ) × (pass.old.view.cursor ≤ cursor)
            × (pass.new.view ≡ settles (range.from, range.to) cursor pass.old.view) }
    {
        // It changes nothing: the move says which range, which a load can't.
        let note = (range.from, range.to);
        self.table
            .shared
            .compare_exchange_with::<Settle>(&mut pass.seat, 0, 0, 0, &note);
    }
}

// How many bits a 64-bit number is shifted by, to be below so many words.
fn shift_of(words: u32) -> u32
    requires some { 1 < words }
    requires power { (k : ℕ) × (words ≡ 2 ^ k) }
    ensures { (result < 64) × (2 ^ result * words ≡ 2 ^ 64) }
{
    let mut shift = 64;
    let mut width = 1u64;
    while width < words as u64 {
        width *= 2;
        shift -= 1;
    }
    shift
}
