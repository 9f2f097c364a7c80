//! What a check answers of a gadget.

ghost use Rattle.std.specs.Prelude.{◌≡◌, ◌≤◌, MatchResult, false};
ghost use Rattle.tuple_model.specs.Limits.{most_size};
ghost use Rattle.wire_table.specs.Tables.{StandsFor};
ghost use Rattle.mask_check.specs.Tallying.{state_of, tallying_of};
ghost use Rattle.mask_check.specs.Decisions.{Decides, Declines, IsReady};

use crate::asked::{Asked, asked_by};
use crate::leaking_answer::leaking_answer;
use crate::notion_answer::notion_answer;
use check_workers::Gate;
use claim_store::Closed;
use gadget_tree::Gadget;
use mask_words::Settings;
use report::{Report, Status};
use std::alloc::Global;
use std::marker::Sync;
use std::thread::Threads;
use tallies::Tally;
use wire_table::WireTable;

/// How a check of a gadget ends, and the report that says why.
#[derive(Drop)]
pub(crate) struct Answer {
    /// Yes, no or listed.
    pub status: Status,
    pub report: Report,
}

/// The answer to one question that a check asks.
#[derive(Drop)]
pub(crate) struct QuestionAnswer {
    /// The store, with the minimal failing tuples.
    pub found: Closed,
    /// For an event: for each size, how many sets of so many wires fail. For a notion there are none.
    pub coefficients: Vec<u128>,
}

/// The answer of a check with these settings, of a gadget with this table, or why there is none. Where the settings ask
/// for tallies, each of `tallies` is fed the failing tuples.
pub(crate) fn decide<R: Threads + Sync, G: Gate>(
    rt: &R,
    alloc: Global,
    gadget: &Gadget,
    table: &WireTable,
    settings: &Settings,
    gate: &G,
    tallies: &mut Vec<Box<dyn Tally>>,
) -> Result<Answer, Status>
    requires table { StandsFor table.now gadget.now }
    requires settings { IsReady settings.now }
    ensures { let tallying = tallying_of (λ b. state_of (kind b) (counts b)) tallies.old.items tallies.new.items in
        MatchResult result (Decides settings.now gadget.now tallying) (Declines settings.now gadget.now tallying) }
{
    match asked_by(settings.task) {
        Asked::Notion(notion) => {
            notion_answer(rt, alloc, gadget, table, settings, notion, gate, tallies)
        }
        Asked::Leaking(kind) => {
            leaking_answer(rt, alloc, gadget, table, settings, kind, gate, tallies)
        }
    }
}
