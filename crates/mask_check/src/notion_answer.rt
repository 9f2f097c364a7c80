//! The verdict on a notion.

ghost use Rattle.std.specs.Prelude.{◌≡◌, ◌≤◌, [], ◌∷◌, IfOk, MatchResult, length, map, false};
ghost use Rattle.tuple_model.specs.Limits.{most_items};
ghost use Rattle.mask_terms.specs.Tasks.{is_demo};
ghost use Rattle.wire_table.specs.Tables.{StandsFor};
ghost use Rattle.wire_table.specs.CodeItems.{item_of};
ghost use Rattle.mask_check.specs.declared.asked.Asked.TheVariants as ask;
ghost use Rattle.mask_check.specs.Questions.{asked_by};
ghost use Rattle.mask_check.specs.Tallying.{state_of, tallying_of};
ghost use Rattle.mask_check.specs.Decisions.{answer_of_notion, AnswersUntallied, Decides, Declines};
ghost use Rattle.mask_check.specs.Decisions.{IsNotionAnswer, IsReady};

use crate::answer::{Answer, QuestionAnswer};
use crate::refusals::refused_notion;
use crate::tallying::tally;
use antichain_list::Antichain;
use check_workers::{Gate, minimal};
use cover_core::Query;
use gadget_tree::Gadget;
use mask_bytes::OutOfMemory;
use mask_words::Settings;
use notions::{Notion, NotionQuery};
use report::{Report, Status};
use std::alloc::Global;
use std::marker::Sync;
use std::thread::Threads;
use tallies::Tally;
use tuple_order::count;
use wire_table::{Item, WireTable};

/// The verdict on a notion, or why there is none.
pub(crate) fn notion_answer<R: Threads + Sync, G: Gate>(
    rt: &R,
    alloc: Global,
    gadget: &Gadget,
    table: &WireTable,
    settings: &Settings,
    notion: Notion,
    gate: &G,
    tallies: &mut Vec<Box<dyn Tally>>,
) -> Result<Answer, Status>
    requires table { StandsFor table.now gadget.now }
    requires settings { IsReady settings.now }
    requires asked { asked_by settings.now.task ≡ ask.Notion notion }
    ensures { let tallying = tallying_of (λ b. state_of (kind b) (counts b)) tallies.old.items tallies.new.items in
        MatchResult result (Decides settings.now gadget.now tallying) (Declines settings.now gadget.now tallying) }
{
    let query = NotionQuery::make(alloc, gadget, table, notion, settings.t).map_err(
        refused_notion,
    )?;
    let tuples = count(query.items(), query.size());
    if tuples > settings.budget {
        return Err(Status::Budget(tuples));
    }
    let found = minimal(
        rt,
        alloc,
        &query,
        settings.workers,
        settings.block,
        settings.words,
        gate,
    )?;
    let mut answer = verdict(alloc, gadget, settings, query.list(), tuples, found.live())?;
    let answers = [QuestionAnswer {
        found,
        coefficients: Vec::new(alloc),
    }];
    tally(
        settings,
        query.list(),
        &answers,
        tallies,
        &mut answer.report,
    )?;
    Ok(answer)
}

// The verdict where these are the failing tuples, of so many tuples of these items, before any tallies.
fn verdict(
    alloc: Global,
    gadget: &Gadget,
    settings: &Settings,
    items: &[Item],
    tuples: u64,
    failing: &Antichain,
) -> Result<Answer, OutOfMemory>
    requires few { length items.now ≤ most_items }
    requires check { is_demo settings.now.task ≡ false }
    requires answer { IsNotionAnswer settings.now gadget.now (map item_of items.now) tuples failing.now }
    ensures { IfOk result
        (λ a. AnswersUntallied settings.now gadget.now (answer_of_notion failing.now ∷ []) a.status a.report) }
{
    let secure = failing.is_empty();
    let mut report = Report::new(alloc);
    report.head(
        settings.task,
        settings.t,
        gadget,
        items.len() as u16,
        settings.size,
        tuples,
    )?;
    report.fails(items, failing)?;
    report.verdict(secure)?;
    let status = if secure { Status::Yes } else { Status::No };
    Ok(Answer { status, report })
}
