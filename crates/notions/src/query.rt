//! The question whether sets of probes break a notion, and its test.

ghost use Rattle.std.specs.Prelude.{◌≡◌, ◌↔◌, ◌+◌, ◌≤◌, IfOk, IfErr, Err, IsTrue, false, length, map};
ghost use Rattle.tuple_model.specs.Tuples.{IsTuple};
ghost use Rattle.tuple_model.specs.Limits.{most_size};
ghost use Rattle.wire_table.specs.Tables.{StandsFor};
ghost use Rattle.wire_table.specs.CodeItems.{item_of};
ghost use Rattle.notions.specs.Notions.{HasTooManyOutputs};
ghost use Rattle.needed.specs.TestedItems.{tested_items};
ghost use Rattle.notions.specs.Questions.{FailsFor, items_asked, Passes};

use crate::grants::is_granted;
use crate::items::items_of;
use crate::notion::{Notion, NotionError};
use cover_core::{Query, Question};
use gadget_tree::Gadget;
use mask_bytes::OutOfMemory;
use needed::ItemScratch;
use std::alloc::Global;
use std::marker::Model;
use std::sync::ledger::Ledger;
use tuple_order::{Steps, Tuple};
use wire_table::{Item, WireTable};

/// The question whether sets of probes break a notion of order `t`: whether the notion grants the simulator no set of
/// input shares from which a tuple of at most `t` items can be simulated. The test finds the least set of shares from
/// which it can, and looks at that one alone.
#[derive(Drop)]
pub struct NotionQuery<'g> {
    notion: Notion,
    gadget: &'g Gadget,
    table: &'g WireTable,
    t: u8,
    list: Vec<Item>,
}

impl<'g> Model for NotionQuery<'g> {
    ghost use Rattle.notions.specs.Questions.{NotionQuestion};

    ghost Value = { NotionQuestion };

    ghost use Rattle.notions.specs.Inside.{notion_asked, IsPreparedNotion};

    ghost view = { notion_asked };

    ghost invariant = { IsPreparedNotion };
}

impl<'g> NotionQuery<'g> {
    /// The question for a gadget, of which this is the table.
    pub fn make(
        alloc: Global,
        gadget: &'g Gadget,
        table: &'g WireTable,
        notion: Notion,
        t: u8,
    ) -> Result<NotionQuery<'g>, NotionError>
        requires table { StandsFor table.now gadget.now }
        requires order { t ≤ most_size }
        ensures made { IfOk result (λ query. query ≡
            record { notion = notion; gadget = gadget.now; table = table.now; t = t }) }
        ensures refused { (result ≡ Err NotionError.SeveralOutputs) ↔ HasTooManyOutputs notion gadget.now }
    {
        if notion == Notion::Sni && gadget.outputs().len() > 1 {
            return Err(NotionError::SeveralOutputs);
        }
        // Called for its contract alone, which says what holds of every gadget.
        let _vars = gadget.vars();
        let list = items_of(alloc, gadget, notion)?;
        Ok(NotionQuery {
            notion,
            gadget,
            table,
            t,
            list,
        })
    }

    /// The items, in order.
    pub fn list(&self) -> &[Item]
        ensures { map item_of result.now ≡ items_asked self.now }
    {
        &self.list
    }
}

/// The items are those of the notion, and a tuple has at most `t` of them.
impl<'g> Question for NotionQuery<'g> {
    ghost items = { λ question. length (items_asked question) };

    ghost size = { λ question. question.t };

    ghost Fails = { FailsFor };
}

impl<'g> Query for NotionQuery<'g> {
    type Scratch = ItemScratch<'g>;

    ghost Fits = { λ question scratch. scratch ≡ tested_items question.table (items_asked question) };

    fn items(&self) -> u16 {
        self.list.len() as u16
    }

    fn size(&self) -> u8 {
        self.t
    }

    fn scratch(&self, alloc: Global) -> Result<ItemScratch<'g>, OutOfMemory> {
        ItemScratch::make(alloc, self.table, &self.list)
    }

    /// Whether a tuple fails. Where it doesn't, a set of input shares that the notion grants simulates its variables.
    fn judge<L: Ledger>(
        &self,
        scratch: &mut ItemScratch<'g>,
        t: &Tuple,
        steps: &mut Steps<L>,
    ) -> bool
        requires scratch { scratch.old ≡ tested_items self.now.table (items_asked self.now) }
        requires tuple { IsTuple (length (items_asked self.now)) self.now.t t.now }
        ensures scratch { scratch.new ≡ tested_items self.now.table (items_asked self.now) }
        ensures fails { IsTrue result → FailsFor self.now t.now }
        ensures passes { result ≡ false → FailsFor self.now t.now → ⊥ }
        ensures simulated { result ≡ false →
            Passes self.now.notion self.now.gadget self.now.t (items_asked self.now) t.now }
        ensures step { steps.new ≡ steps.old + 1 }
    {
        steps.tick();
        let inputs = self.gadget.inputs().len() as u8;
        let least = scratch.needed(t.items(), &[]);
        !is_granted(self.notion, inputs, self.t, &self.list, t.items(), least)
    }
}
