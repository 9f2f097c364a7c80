//! Tuples counted by size and by item, and a report's lines of counts.

use gadget_tree::read_gadget;
use report::{Report, Wires};
use std::process::Abort;
use std::test::Fail;
use tallies::{ByItem, BySize, Cell, Label, Tally};
use tuple_order::Tuple;
use wire_table::{Which, WireTable, wire_items};

const COPY: &str = "#SHARES 2\n#IN a\n#OUT d\nd0 = a0\nd1 = a1\n";

const COUNTS: &[u8] =
    b"tally size 2 1\ntally item a0 3\ntally item #7 2\ntally item #65535 18446744073709551615\n";

const COEFFICIENTS: &[u8] =
    b"coefficients 0 0 4 6\ncoefficients\ngreatest any 0 4\ngreatest in0 1\n\
greatest in1 340282366920938463463374607431768211455\ngreatest both 0\n";

// The tuple of these items.
fn tuple(rt: &impl Abort, items: &[u16]) -> Tuple {
    Tuple::from_items(items).expect(rt, "items that rise")
}

// The count of tuples of a size.
fn of_size(size: u8, count: u64) -> Option<Cell> {
    let label = Label::Size(size);
    Some(Cell { label, count })
}

// The count of tuples with an item.
fn of_item(item: u16, count: u64) -> Option<Cell> {
    let label = Label::Item(item);
    Some(Cell { label, count })
}

// Feeds a tuple to each tally.
fn feed_all(tallies: &mut Vec<Box<dyn Tally>>, t: &Tuple) {
    for tally in tallies.iter_mut() {
        tally.feed(0, t);
    }
}

#[test]
fn counts_tuples_by_size(rt: HostRuntime) {
    let mut sizes = BySize::new();
    sizes.feed(0, &tuple(&rt, &[0, 1]));
    sizes.feed(1, &tuple(&rt, &[1, 7]));
    sizes.feed(1, &tuple(&rt, &[]));
    sizes.feed(1, &tuple(&rt, &[0, 1, 2, 3, 4, 510]));
    assert_eq!(rt; sizes.cell(0), of_size(0, 1));
    assert_eq!(rt; sizes.cell(1), of_size(1, 0));
    assert_eq!(rt; sizes.cell(2), of_size(2, 2));
    assert_eq!(rt; sizes.cell(6), of_size(6, 1));
    assert_eq!(rt; sizes.cell(7), None);
}

#[test]
fn counts_tuples_by_item(rt: HostRuntime) -> Result<(), Fail> {
    let mut items = ByItem::make(rt.alloc())?;
    items.feed(0, &tuple(&rt, &[0, 1]));
    items.feed(1, &tuple(&rt, &[1, 510]));
    assert_eq!(rt; items.cell(0), of_item(0, 1));
    assert_eq!(rt; items.cell(1), of_item(1, 2));
    assert_eq!(rt; items.cell(2), of_item(2, 0));
    assert_eq!(rt; items.cell(510), of_item(510, 1));
    assert_eq!(rt; items.cell(511), None);
    Ok(())
}

#[test]
fn each_tally_of_a_list_counts_for_itself(rt: HostRuntime) -> Result<(), Fail> {
    let mut tallies: Vec<Box<dyn Tally>> = Vec::new(rt.alloc());
    tallies.push(Box::new(rt.alloc(), BySize::new())?)?;
    tallies.push(Box::new(rt.alloc(), ByItem::make(rt.alloc())?)?)?;
    feed_all(&mut tallies, &tuple(&rt, &[2, 5]));
    feed_all(&mut tallies, &tuple(&rt, &[5]));
    let sizes = tallies.first().expect(&rt, "the first tally");
    assert_eq!(rt; sizes.cell(2), of_size(2, 1));
    let items = tallies.get(1).expect(&rt, "the second tally");
    assert_eq!(rt; items.cell(5), of_item(5, 2));
    Ok(())
}

#[test]
fn a_report_names_what_was_counted(rt: HostRuntime) -> Result<(), Fail> {
    let text = COPY;
    assert!(rt; text.len() <= 1_048_576);
    let gadget = read_gadget(rt.alloc(), text.as_bytes())?;
    let table = WireTable::make(rt.alloc(), &gadget)?;
    let items = wire_items(rt.alloc(), &gadget, &table, Wires::Plain)?;
    let mut report = Report::new(rt.alloc());
    let cells = [
        of_size(2, 1),
        of_size(1, 0),
        of_item(0, 3),
        of_item(7, 2),
        of_item(9, 0),
        of_item(65535, 18446744073709551615),
    ];
    for cell in cells {
        report.tally(&items, &cell.expect(&rt, "a cell"))?;
    }
    assert_eq!(rt; report.bytes(), COUNTS);
    Ok(())
}

#[test]
fn a_report_lists_coefficients(rt: HostRuntime) -> Result<(), Fail> {
    let mut report = Report::new(rt.alloc());
    report.coefficients(&[0, 0, 4, 6])?;
    report.coefficients(&[])?;
    report.greatest(Which::Any, &[0, 4])?;
    report.greatest(Which::Input(0), &[1])?;
    report.greatest(Which::Input(1), &[u128::MAX])?;
    report.greatest(Which::Both, &[0])?;
    assert_eq!(rt; report.bytes(), COEFFICIENTS);
    Ok(())
}
