//! What the caller of the program sees of a status: a line of text, and an exit status.

ghost use Rattle.std.specs.Prelude.{◌≡◌, ◌≤◌, ◌++◌, length, decimal};
ghost use Rattle.mask_terms.specs.declared.usage_kind.UsageKind.TheVariants.{Value};
ghost use Rattle.report.specs.Texts.{row, line_row, memory_row, file_row, wires_row, row_of};
ghost use Rattle.report.specs.Texts.{usage_text, header_text, what_text, not_for_text};

use crate::line::Line;
use crate::status::{NotFor, Status};
use gadget_text::Header;
use gadget_tree::{FileError, What};
use itoa::Buffer;
use mask_terms::{Opt, UsageKind};
use wire_table::WireError;

// A row of the table of statuses.
#[derive(Drop)]
struct StatusRow {
    exit: u8,
    text: Line,
}

/// Puts the text of a status, without a line feed, in place of what `out` holds. It is empty where there is a report.
pub fn status_text(status: &Status, out: &mut Line)
    ensures { out.new ≡ (row_of status.now).text }
{
    *out = row_of(status).text;
}

/// The exit status of the program.
pub fn exit_status(status: &Status) -> u8
    ensures { result ≡ (row_of status.now).exit }
{
    row_of(status).exit
}

// The table of the statuses.
fn row_of(status: &Status) -> StatusRow
    ensures { result ≡ row_of status.now }
{
    match status {
        Status::Yes | Status::Listed => row(0, ""),
        Status::No => row(1, ""),
        Status::Usage(kind) => usage_row(*kind),
        Status::SizeNotUsed => row(2, "mask: --size and --wires are for rpc and rpe"),
        Status::File(error) => file_row(*error),
        Status::Wires(error) => wires_row(*error),
        Status::TooLong => row(3, "mask: file too long"),
        Status::NotForGadget(why) => not_for_row(*why),
        Status::Budget(count) => count_row(5, "mask: over budget: ", *count),
        Status::ReadFault => row(6, "mask: read failed"),
        Status::WriteFault => row(7, "mask: write failed"),
        Status::OutOfMemory => memory_row(),
    }
}

fn row(exit: u8, text: &str) -> StatusRow
    requires { length text.now ≤ 50 }
    ensures { result ≡ row exit text.now }
{
    let mut line = Line::new();
    line.push(text);
    StatusRow { exit, text: line }
}

// The same wherever memory ran out.
fn memory_row() -> StatusRow
    ensures { result ≡ memory_row }
{
    row(8, "mask: out of memory")
}

// What is wrong with the command line.
fn usage_row(kind: UsageKind) -> StatusRow
    ensures { result ≡ row 2 (usage_text kind) }
{
    match kind {
        UsageKind::Words => row(2, "mask: usage: mask TASK ARG [options]"),
        UsageKind::Task => row(2, "mask: unknown task"),
        UsageKind::Argument => row(2, "mask: bad argument"),
        UsageKind::Value(option) => value_row(option),
    }
}

// An option with a value that it doesn't take.
fn value_row(option: Opt) -> StatusRow
    ensures { result ≡ row 2 (usage_text (Value option)) }
{
    let mut refused = row(2, "mask: bad value of ");
    refused.text.push(option.word());
    refused
}

// Why a file is refused.
fn file_row(error: FileError) -> StatusRow
    ensures { result ≡ file_row error }
{
    match error {
        FileError::NotText(line) => line_row(line, "not text"),
        FileError::Syntax(line) => line_row(line, "syntax"),
        FileError::HeaderTwice(line) => line_row(line, "header twice"),
        FileError::HeaderMissing(header) => missing_row(header),
        FileError::BadNumber(line) => line_row(line, "bad number"),
        FileError::BadName(line) => line_row(line, "bad name"),
        FileError::NameTwice(line) => line_row(line, "name twice"),
        FileError::Unknown(line) => line_row(line, "unknown name"),
        FileError::OutputMissing(output, index) => output_row(output, index),
        FileError::TooMany(what) => many_row(what),
        FileError::OutOfMemory => memory_row(),
    }
}

// Why a gadget is refused.
fn wires_row(error: WireError) -> StatusRow
    ensures { result ≡ wires_row error }
{
    match error {
        WireError::TooWide { line, .. } => line_row(line, "too many monomials"),
        WireError::RandomProduct { line, .. } => line_row(line, "random in a product"),
        WireError::Degree { line, .. } => line_row(line, "degree above 2"),
        WireError::OutOfMemory => memory_row(),
    }
}

// A line of the file, and what is wrong with it.
fn line_row(line: u32, offence: &str) -> StatusRow
    requires { length offence.now ≤ 40 }
    ensures { result ≡ line_row line offence.now }
{
    let mut digits = Buffer::new();
    let mut refused = row(3, "mask: line ");
    refused.text.push(digits.format(line));
    refused.text.push(": ");
    refused.text.push(offence);
    refused
}

// A header that the file lacks.
fn missing_row(header: Header) -> StatusRow
    ensures { result ≡ file_row (FileError.HeaderMissing header) }
{
    let mut refused = row(3, "mask: no ");
    refused.text.push(header_text(header));
    refused.text.push(" line");
    refused
}

// A share of an output that the file does not assign.
fn output_row(output: u8, index: u8) -> StatusRow
    ensures { result ≡ file_row (FileError.OutputMissing output index) }
{
    let mut digits = Buffer::new();
    let mut refused = row(3, "mask: output ");
    refused.text.push(digits.format(output));
    refused.text.push(" share ");
    refused.text.push(digits.format(index));
    refused.text.push(" is not assigned");
    refused
}

// What the file has too many of.
fn many_row(what: What) -> StatusRow
    ensures { result ≡ file_row (FileError.TooMany what) }
{
    let mut refused = row(3, "mask: too many ");
    refused.text.push(what_text(what));
    refused
}

// A text, and after it the number that is too large.
fn count_row(exit: u8, text: &str, count: u64) -> StatusRow
    requires { length text.now ≤ 50 }
    ensures { result ≡ row exit (text.now ++ decimal count) }
{
    let mut digits = Buffer::new();
    let mut refused = row(exit, text);
    refused.text.push(digits.format(count));
    refused
}

// Why a gadget doesn't suit the task.
fn not_for_row(why: NotFor) -> StatusRow
    ensures { result ≡ row 4 (not_for_text why) }
{
    match why {
        NotFor::SeveralOutputs => row(4, "mask: sni needs one output"),
        NotFor::ManyInputs => row(4, "mask: rpe needs at most two inputs"),
        NotFor::OrderTooLarge => row(4, "mask: order too large"),
        NotFor::ManyEvents(count) => count_row(4, "mask: too many events: ", count),
    }
}

fn header_text(header: Header) -> &'static str
    ensures text { result.now ≡ header_text header }
    ensures short { length result.now ≤ 8 }
{
    match header {
        Header::Profile => "#PROFILE",
        Header::Shares => "#SHARES",
        Header::In => "#IN",
        Header::Randoms => "#RANDOMS",
        Header::Out => "#OUT",
    }
}

fn what_text(what: What) -> &'static str
    ensures text { result.now ≡ what_text what }
    ensures short { length result.now ≤ 11 }
{
    match what {
        What::Shares => "shares",
        What::Inputs => "inputs",
        What::Outputs => "outputs",
        What::Randoms => "randoms",
        What::Nesting => "parentheses",
        What::Variables => "variables",
    }
}
