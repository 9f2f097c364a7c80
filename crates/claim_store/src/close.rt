//! The end of a store.

ghost use Rattle.std.specs.Prelude.{◌≡◌, ◌+◌, IfOk, OnOk};
ghost use Rattle.std.specs.Slots.{slots_items, slots_len, IsFull};
ghost use Rattle.tuple_model.specs.Antichains.{IsAntichain};
ghost use Rattle.claim_store.specs.Closing.{CoversCode, CoversCodes, CoversWords, Ends, HasWords};
ghost use Rattle.claim_store.specs.Rule.{asked};
ghost use Rattle.claim_store.specs.Seen.{IsPassOf};

use crate::pass::Pass;
use crate::store::Store;
use antichain_list::Antichain;
use atomic_table::Closed as ClosedTable;
use cover_core::Query;
use mask_bytes::OutOfMemory;
use std::alloc::Global;
use std::marker::Model;
use tuple_order::Tuple;

/// What a store held at its end. Only [`Store::close`] makes one.
#[derive(Drop)]
pub struct Closed {
    live: Antichain,
    cursor: u64,
    words: u32,
}

impl Model for Closed {
    ghost use Rattle.claim_store.specs.Closing.{ClosedSeen};

    ghost Value = { ClosedSeen };

    ghost view = { λ c. record { live = c.live; cursor = c.cursor; words = c.words } };
}

impl Closed {
    /// The stored tuples of which no proper subset is stored.
    pub fn live(&self) -> &Antichain
        ensures { result.now ≡ self.now.live }
    {
        &self.live
    }

    /// How many ranks were claimed: all those below this.
    pub fn cursor(&self) -> u64
        ensures { result ≡ self.now.cursor }
    {
        self.cursor
    }

    /// How many words the store's table had.
    pub fn words(&self) -> u32
        ensures { result ≡ self.now.words }
    {
        self.words
    }
}

impl<Q: Query> Store<Q> {
    /// Ends the store, by the pass that has all parts, so that no other is left. Where memory can't be had, what was
    /// stored is lost.
    pub fn close(self, alloc: Global, pass: Pass<Q>) -> Result<Closed, OutOfMemory>
        requires pass { IsPassOf Q.Question.items Q.Question.size Q.Question.Fails self pass }
        requires whole { pass.view.parts ≡ 64 }
        ensures { IfOk result (λ closed. Ends (asked Q.Question.items Q.Question.size Q.Question.Fails self.facts)
            self.facts.width pass.view closed) }
    {
        let Store {
            table,
            total: _,
            width,
            shift: _,
        } = self;
        let Pass { seat } = pass;
        let closed = table.close_with(seat);
        let cursor = closed.word(0);
        let live = live_of(alloc, &closed, width);
        closed.free();
        Ok(Closed {
            live: live?,
            cursor,
            words: width as u32,
        })
    }
}

// The tuples whose codes stand in the words after the first, but for those that have another one within.
fn live_of(
    alloc: Global,
    closed: &ClosedTable<(u64, u64), Global>,
    width: usize,
) -> Result<Antichain, OutOfMemory>
    requires words { slots_len closed.now.words ≡ width + 1 }
    requires full { IsFull closed.now.words }
    ensures { IfOk result (λ live. IsAntichain live × CoversWords (slots_items closed.now.words) width live) }
{
    let mut codes = codes_of(alloc, closed, width)?;
    // Tuples within another one have lower codes and are added before it, so adding takes none out again.
    codes.sort()?;
    antichain_of(alloc, &codes)
}

// The words after the first, but for the empty ones.
fn codes_of(
    alloc: Global,
    closed: &ClosedTable<(u64, u64), Global>,
    width: usize,
) -> Result<Vec<u64>, OutOfMemory>
    requires words { slots_len closed.now.words ≡ width + 1 }
    requires full { IsFull closed.now.words }
    ensures { IfOk result (λ codes. HasWords (slots_items closed.now.words) width codes.items) }
{
    let mut codes = Vec::new(alloc);
    for place in 0..width {
        let word = closed.word(place + 1);
        if word != 0 {
            codes.push(word)?;
        }
    }
    Ok(codes)
}

// The tuples with these codes, but for those that have another one within.
fn antichain_of(alloc: Global, codes: &[u64]) -> Result<Antichain, OutOfMemory>
    ensures { IfOk result (λ live. IsAntichain live × CoversCodes codes.now live) }
{
    let mut live = Antichain::new(alloc);
    for index in 0..codes.len() {
        add_code(&mut live, codes[index])?;
    }
    Ok(live)
}

// Adds the tuple with a code, where there is one.
fn add_code(live: &mut Antichain, word: u64) -> Result<(), OutOfMemory>
    ensures covers { OnOk result (CoversCode live.old word live.new) }
    ensures antichain { IsAntichain live.old → IsAntichain live.new }
{
    let Some(t) = Tuple::of_code(word) else {
        return Ok(());
    };
    live.add(t)?;
    Ok(())
}
