//! The question whether tuples of leaking wires fail for an event, and its test.

ghost use Rattle.std.specs.Prelude.{◌≡◌, ◌+◌, ◌≤◌, All, IfOk, IsTrue, false, length, map};
ghost use Rattle.tuple_model.specs.Tuples.{IsTuple};
ghost use Rattle.tuple_model.specs.Limits.{most_size};
ghost use Rattle.wire_table.specs.Tables.{StandsFor};
ghost use Rattle.wire_table.specs.CodeItems.{HasSmallWeight, item_of};
ghost use Rattle.needed.specs.TestedItems.{tested_items};
ghost use Rattle.rp_events.specs.Questions.{FailsAsked, IsEventOf, leaking_items, PassesEvent, event_of};

use crate::event::Event;
use crate::exceeds::all_exceed;
use crate::output_shares::shares_in_each;
use cover_core::{Query, Question};
use gadget_tree::Gadget;
use mask_bytes::OutOfMemory;
use needed::ItemScratch;
use std::alloc::Global;
use std::marker::Model;
use std::sync::ledger::Ledger;
use tuple_order::{Steps, Tuple};
use wire_table::{Item, WireTable, Wires, wire_items};

/// The question whether a tuple of leaking wires fails for an event: whether each set of output shares that the event
/// has needs, together with the tuple, too many input shares.
#[derive(Drop)]
pub struct EventQuery<'g> {
    event: &'g Event,
    gadget: &'g Gadget,
    table: &'g WireTable,
    t: u8,
    size: u8,
    wires: Wires,
    list: Vec<Item>,
    // The output shares of each set of the event.
    outputs: Vec<Vec<u16>>,
}

impl<'g> Model for EventQuery<'g> {
    ghost use Rattle.rp_events.specs.Questions.{EventQuestion};

    ghost Value = { EventQuestion };

    ghost use Rattle.rp_events.specs.Inside.{event_asked, IsPreparedEvent};

    ghost view = { event_asked };

    ghost invariant = { IsPreparedEvent };
}

impl<'g> EventQuery<'g> {
    /// The question of an event of order `t` for a gadget, of which this is the table, about tuples of at most `size`
    /// items.
    pub fn make(
        alloc: Global,
        gadget: &'g Gadget,
        table: &'g WireTable,
        event: &'g Event,
        t: u8,
        size: u8,
        wires: Wires,
    ) -> Result<EventQuery<'g>, OutOfMemory>
        requires table { StandsFor table.now gadget.now }
        requires event { IsEventOf gadget.now (event_of event.now) }
        requires size { size ≤ most_size }
        ensures { IfOk result (λ query. query ≡ record {
          event = event_of event.now;
          gadget = gadget.now;
          table = table.now;
          t = t;
          size = size;
          wires = wires;
        }) }
    {
        // Called for its contract alone, which says what holds of every gadget.
        let _vars = gadget.vars();
        let list = wire_items(alloc, gadget, table, wires)?;
        let outputs = shares_in_each(alloc, gadget, &event.sets)?;
        Ok(EventQuery {
            event,
            gadget,
            table,
            t,
            size,
            wires,
            list,
            outputs,
        })
    }

    /// The items, in order.
    pub fn list(&self) -> &[Item]
        ensures items { map item_of result.now ≡ leaking_items self.now }
        ensures weights { All HasSmallWeight (map item_of result.now) }
    {
        &self.list
    }
}

/// The items are the wires', and a tuple has at most `size` of them.
impl<'g> Question for EventQuery<'g> {
    ghost items = { λ question. length (leaking_items question) };

    ghost size = { λ question. question.size };

    ghost Fails = { FailsAsked };
}

impl<'g> Query for EventQuery<'g> {
    type Scratch = ItemScratch<'g>;

    ghost Fits = { λ question scratch. scratch ≡ tested_items question.table (leaking_items question) };

    fn items(&self) -> u16 {
        self.list.len() as u16
    }

    fn size(&self) -> u8 {
        self.size
    }

    fn scratch(&self, alloc: Global) -> Result<ItemScratch<'g>, OutOfMemory> {
        ItemScratch::make(alloc, self.table, &self.list)
    }

    /// Whether a tuple fails. Where it doesn't, some set of the event's output shares is simulated with it from input
    /// shares that don't exceed.
    fn judge<L: Ledger>(
        &self,
        scratch: &mut ItemScratch<'g>,
        t: &Tuple,
        steps: &mut Steps<L>,
    ) -> bool
        requires scratch { scratch.old ≡ tested_items self.now.table (leaking_items self.now) }
        requires tuple { IsTuple (length (leaking_items self.now)) self.now.size t.now }
        ensures scratch { scratch.new ≡ tested_items self.now.table (leaking_items self.now) }
        ensures fails { IsTrue result → FailsAsked self.now t.now }
        ensures passes { result ≡ false → FailsAsked self.now t.now → ⊥ }
        ensures simulated { result ≡ false →
            PassesEvent self.now.gadget self.now.t self.now.event (leaking_items self.now) t.now }
        ensures step { steps.new ≡ steps.old + 1 }
    {
        steps.tick();
        let inputs = self.gadget.inputs().len() as u8;
        all_exceed(
            scratch,
            t.items(),
            &self.outputs,
            inputs,
            self.event.which,
            self.t,
        )
    }
}
