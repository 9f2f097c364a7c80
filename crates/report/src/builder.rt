//! The text of a report, built line by line.

ghost use Rattle.std.specs.Prelude.{◌≡◌, ◌<◌, false, [], ◌++◌, length, map, All, IfOk, OnOk, OnErr, codes, string_bytes, decimal};
ghost use Rattle.mask_terms.specs.Tasks.{is_demo};
ghost use Rattle.wire_table.specs.CodeItems.{item_of};
ghost use Rattle.wire_table.specs.Whiches.{which_word};
ghost use Rattle.report.specs.Report.{head, event_line, item_name, fail_line, fail_lines, verdict};
ghost use Rattle.report.specs.Report.{check_line as check_line_of, gadget_line as gadget_line_of};
ghost use Rattle.report.specs.Report.{space_line as space_line_of, wires_line as wires_line_of};
ghost use Rattle.report.specs.Report.{newline, spaced, coefficients_line, greatest_line};
ghost use Rattle.report.specs.Report.{name_or_number, label_words as label_words_of, tally_line};
ghost use Rattle.report.specs.Additions.{Appends, AreAmong, HasOwnWord};

use antichain_list::Antichain;
use gadget_tree::{Gadget, Name};
use itoa::Buffer;
use mask_bytes::OutOfMemory;
use mask_terms::{Task, Wires};
use std::alloc::Global;
use std::marker::Model;
use tallies::{Cell, Label};
use wire_table::{Item, Which};

/// A report as far as it is built: whole lines, each ended by a line feed. Contracts see its bytes. A call to which
/// memory is refused leaves it as it was.
#[derive(Drop)]
pub struct Report {
    bytes: Vec<u8>,
}

impl Model for Report {
    ghost use Rattle.std.specs.Prelude.{List, ℕ};

    ghost Value = { List ℕ };

    ghost view = { λ report. report.bytes.items };
}

impl Report {
    /// The empty report.
    pub fn new(alloc: Global) -> Report
        ensures { result ≡ [] }
    {
        Report {
            bytes: Vec::new(alloc),
        }
    }

    /// The bytes of the report.
    pub fn bytes(&self) -> &[u8]
        ensures { result.now ≡ self.now }
    {
        &self.bytes
    }

    /// Adds the lines of the check, of the gadget, and of the tuples of at most `size` of the `items`. The check that a
    /// demonstration makes is named by its notion.
    pub fn head(
        &mut self,
        task: Task,
        t: u8,
        gadget: &Gadget,
        items: u16,
        size: u8,
        tuples: u64,
    ) -> Result<(), OutOfMemory>
        requires asked { is_demo task ≡ false }
        ensures added { OnOk result (self.new ≡ self.old ++ head task t gadget.now items size tuples) }
        ensures refused { OnErr result (self.new ≡ self.old) }
    {
        let alloc = *self.bytes.allocator();
        let mut text = check_line(alloc, task, t)?;
        text.push_str(&gadget_line(alloc, gadget)?)?;
        text.push_str(&space_line(alloc, items, size, tuples)?)?;
        Ok(self.bytes.extend_from_slice(text.as_bytes())?)
    }

    /// Adds the line of the wires that leak, of which there are `count`.
    pub fn wires(&mut self, wires: Wires, count: u64) -> Result<(), OutOfMemory>
        ensures added { OnOk result (self.new ≡ self.old ++ wires_line_of wires count) }
        ensures refused { OnErr result (self.new ≡ self.old) }
    {
        let text = wires_line(*self.bytes.allocator(), wires, count)?;
        Ok(self.bytes.extend_from_slice(text.as_bytes())?)
    }

    /// Adds the line of an event, before those of its failing tuples.
    pub fn event(&mut self, name: &Name) -> Result<(), OutOfMemory>
        ensures added { OnOk result (self.new ≡ self.old ++ event_line name.now) }
        ensures refused { OnErr result (self.new ≡ self.old) }
    {
        let pieces: [&[u8]; 3] = [b"event ", name.bytes(), b"\n"];
        let line = pieces.concat(*self.bytes.allocator())?;
        Ok(self.bytes.extend_from_slice(&line)?)
    }

    /// Adds a line for each failing tuple of the list, with the names of its items.
    pub fn fails(&mut self, items: &[Item], list: &Antichain) -> Result<(), OutOfMemory>
        requires there { All (AreAmong (map item_of items.now)) list.now }
        ensures added { OnOk result (self.new ≡ self.old ++ fail_lines (map item_of items.now) list.now) }
        ensures refused { OnErr result (self.new ≡ self.old) }
    {
        let kept = self.bytes.len();
        let added = add_fail_lines(&mut self.bytes, items, list);
        if added.is_err() {
            // Some lines, or a part of one, may be there.
            self.bytes.truncate(kept);
        }
        added
    }

    /// Adds the verdict: yes where no tuple fails.
    pub fn verdict(&mut self, yes: bool) -> Result<(), OutOfMemory>
        ensures added { OnOk result (self.new ≡ self.old ++ verdict yes) }
        ensures refused { OnErr result (self.new ≡ self.old) }
    {
        let line: &[u8] = if yes {
            b"verdict yes\n"
        } else {
            b"verdict no\n"
        };
        Ok(self.bytes.extend_from_slice(line)?)
    }

    /// Adds the line of the failure coefficients of an event.
    pub fn coefficients(&mut self, list: &[u128]) -> Result<(), OutOfMemory>
        ensures added { OnOk result (self.new ≡ self.old ++ coefficients_line list.now) }
        ensures refused { OnErr result (self.new ≡ self.old) }
    {
        let line = numbers_line(*self.bytes.allocator(), "coefficients", list)?;
        Ok(self.bytes.extend_from_slice(&line)?)
    }

    /// Adds the line of the greatest coefficients of the events that ask over these inputs.
    pub fn greatest(&mut self, which: Which, list: &[u128]) -> Result<(), OutOfMemory>
        requires { HasOwnWord which }
        ensures added { OnOk result (self.new ≡ self.old ++ greatest_line which list.now) }
        ensures refused { OnErr result (self.new ≡ self.old) }
    {
        let alloc = *self.bytes.allocator();
        let words = greatest_words(alloc, which)?;
        let line = numbers_line(alloc, &words, list)?;
        Ok(self.bytes.extend_from_slice(&line)?)
    }

    /// Adds the line of a cell of a tally, unless it counted nothing. An item past the `items` has its number for a
    /// name.
    pub fn tally(&mut self, items: &[Item], cell: &Cell) -> Result<(), OutOfMemory>
        ensures added { OnOk result (self.new ≡ self.old ++ tally_line (map item_of items.now) cell.now) }
        ensures refused { OnErr result (self.new ≡ self.old) }
    {
        let line = cell_line(*self.bytes.allocator(), items, cell)?;
        Ok(self.bytes.extend_from_slice(&line)?)
    }
}

// The line of the check that was asked for.
#[tactic(auto, unfolding(crate::specs::Report::check_line))]
fn check_line(alloc: Global, task: Task, t: u8) -> Result<String, OutOfMemory>
    ensures { IfOk result (λ text. string_bytes text ≡ check_line_of task t) }
{
    let word = task.word();
    Ok(format!(in alloc; "check {word} {t}\n")?)
}

// The line of the gadget that was checked.
fn gadget_line(alloc: Global, gadget: &Gadget) -> Result<String, OutOfMemory>
    ensures { IfOk result (λ text. string_bytes text ≡ gadget_line_of gadget.now) }
{
    let shares = gadget.shares();
    let inputs = gadget.inputs().len();
    let outputs = gadget.outputs().len();
    let randoms = gadget.randoms();
    let variables = gadget.vars().len();
    Ok(format!(in alloc;
        "gadget shares {shares} inputs {inputs} outputs {outputs} randoms {randoms} variables {variables}\n"
    )?)
}

// The line of the tuples that were asked about.
fn space_line(alloc: Global, items: u16, size: u8, tuples: u64) -> Result<String, OutOfMemory>
    ensures { IfOk result (λ text. string_bytes text ≡ space_line_of items size tuples) }
{
    Ok(format!(in alloc; "space items {items} size {size} tuples {tuples}\n")?)
}

// The line of the wires that leak.
#[tactic(auto, unfolding(crate::specs::Report::wires_line))]
fn wires_line(alloc: Global, wires: Wires, count: u64) -> Result<String, OutOfMemory>
    ensures { IfOk result (λ text. string_bytes text ≡ wires_line_of wires count) }
{
    let word = wires.word();
    Ok(format!(in alloc; "wires {word} {count}\n")?)
}

// The words of a line of greatest coefficients.
fn greatest_words(alloc: Global, which: Which) -> Result<String, OutOfMemory>
    ensures { IfOk result (λ text. string_bytes text ≡ codes "greatest " ++ which_word which) }
{
    let word = which.word();
    Ok(format!(in alloc; "greatest {word}")?)
}

// A line of these words and numbers.
fn numbers_line(alloc: Global, words: &str, list: &[u128]) -> Result<Vec<u8>, OutOfMemory>
    ensures { IfOk result (λ line. line.items ≡ words.now ++ spaced list.now ++ newline) }
{
    let mut line = Vec::from_slice(alloc, words.as_bytes())?;
    for number in list {
        line.push(b' ')?;
        line.extend_from_slice(Buffer::new().format(*number).as_bytes())?;
    }
    line.push(b'\n')?;
    Ok(line)
}

// The line of a cell, which is empty where nothing was counted.
#[tactic(auto, unfolding(crate::specs::Report::tally_line))]
fn cell_line(alloc: Global, items: &[Item], cell: &Cell) -> Result<Vec<u8>, OutOfMemory>
    ensures { IfOk result (λ line. line.items ≡ tally_line (map item_of items.now) cell.now) }
{
    if cell.count == 0 {
        return Ok(Vec::new(alloc));
    }
    let mut line = label_words(alloc, items, cell.label)?;
    line.push(b' ')?;
    line.extend_from_slice(Buffer::new().format(cell.count).as_bytes())?;
    line.push(b'\n')?;
    Ok(line)
}

// The words for what a cell counts.
#[tactic(auto, unfolding(crate::specs::Report::label_words))]
fn label_words(alloc: Global, items: &[Item], label: Label) -> Result<Vec<u8>, OutOfMemory>
    ensures { IfOk result (λ words. words.items ≡ label_words_of (map item_of items.now) label) }
{
    match label {
        Label::Size(size) => size_words(alloc, size),
        Label::Item(number) => item_words(alloc, items, number),
    }
}

// The words for tuples of a size.
fn size_words(alloc: Global, size: u8) -> Result<Vec<u8>, OutOfMemory>
    ensures { IfOk result (λ words. words.items ≡ codes "tally size " ++ decimal size) }
{
    let mut words = Vec::from_slice(alloc, b"tally size ")?;
    words.extend_from_slice(Buffer::new().format(size).as_bytes())?;
    Ok(words)
}

// The words for tuples with an item.
fn item_words(alloc: Global, items: &[Item], number: u16) -> Result<Vec<u8>, OutOfMemory>
    ensures { IfOk result (λ w. w.items ≡ codes "tally item " ++ name_or_number (map item_of items.now) number) }
{
    let Some(item) = items.get(usize::from(number)) else {
        return number_words(alloc, number);
    };
    name_words(alloc, item.name.bytes())
}

// The words for tuples with an item of this name.
fn name_words(alloc: Global, name: &[u8]) -> Result<Vec<u8>, OutOfMemory>
    ensures { IfOk result (λ words. words.items ≡ codes "tally item " ++ name.now) }
{
    let mut words = Vec::from_slice(alloc, b"tally item ")?;
    words.extend_from_slice(name)?;
    Ok(words)
}

// The words for tuples with an item that has no name.
fn number_words(alloc: Global, number: u16) -> Result<Vec<u8>, OutOfMemory>
    ensures { IfOk result (λ words. words.items ≡ codes "tally item " ++ (codes "#" ++ decimal number)) }
{
    let mut words = Vec::from_slice(alloc, b"tally item #")?;
    words.extend_from_slice(Buffer::new().format(number).as_bytes())?;
    Ok(words)
}

// Adds a line for each tuple of the list.
fn add_fail_lines(bytes: &mut Vec<u8>, items: &[Item], list: &Antichain) -> Result<(), OutOfMemory>
    requires { All (AreAmong (map item_of items.now)) list.now }
    ensures { Appends result bytes.old.items (fail_lines (map item_of items.now) list.now) bytes.new.items }
{
    for place in 0..list.len() {
        add_fail_line(bytes, items, list.tuple(place).items())?;
    }
    Ok(())
}

// Adds the line of a failing tuple.
#[tactic(auto, unfolding(crate::specs::Report::fail_line))]
fn add_fail_line(bytes: &mut Vec<u8>, items: &[Item], tuple: &[u16]) -> Result<(), OutOfMemory>
    requires { AreAmong (map item_of items.now) tuple.now }
    ensures { Appends result bytes.old.items (fail_line (map item_of items.now) tuple.now) bytes.new.items }
{
    bytes.extend_from_slice(b"fail ")?;
    bytes.extend_from_slice(Buffer::new().format(tuple.len()).as_bytes())?;
    for number in tuple {
        add_name(bytes, items, *number)?;
    }
    Ok(bytes.push(b'\n')?)
}

// Adds a space and the name of the item with this number.
fn add_name(bytes: &mut Vec<u8>, items: &[Item], number: u16) -> Result<(), OutOfMemory>
    requires { number < length items.now }
    ensures { Appends result bytes.old.items (codes " " ++ item_name (map item_of items.now) number) bytes.new.items }
{
    bytes.push(b' ')?;
    Ok(bytes.extend_from_slice(items[usize::from(number)].name.bytes())?)
}
