//! What each kind of step does to the view of its seat.

ghost use Rattle.std.specs.Prelude.{◌≡◌, ◌≢◌, ◌↔◌, ◌+◌, ◌^◌, ◌<◌, ◌≤◌, IsTrue, IfOk, OnOk};
ghost use Rattle.cover_core.specs.Core.{Has};
ghost use Rattle.cover_core.specs.Effects.{first_view as the_first, joins, knows, looks, opens, publishes, settles, spent, split_left, split_right};

use crate::inserting::{
    add_number, add_numbers, add_pair, add_pairs, add_range, add_ranges, set_bare, take_range,
};
use crate::rows::{Numbers, Pairs, Ranges};
use crate::state::View;
use mask_bytes::OutOfMemory;
use std::alloc::Global;
use tuple_order::Range;

/// The seat has seen the cursor.
pub(crate) fn know(view: &mut View, cursor: u64)
    requires { view.old.moves < 2 ^ 63 }
    ensures { view.new ≡ knows cursor view.old }
{
    view.cursor = cursor;
    view.moves += 1;
}

/// The seat has opened the ranks from its cursor on.
pub(crate) fn open(view: &mut View, to: u64) -> Result<(), OutOfMemory>
    requires moves { view.old.moves < 2 ^ 63 }
    requires some { view.old.cursor < to }
    ensures { OnOk result (view.new ≡ opens to view.old) }
{
    let range = Range {
        from: view.cursor,
        to,
    };
    add_range(&mut view.held, range)?;
    view.cursor = to;
    view.moves += 1;
    Ok(())
}

/// The seat has loaded a word of the table.
pub(crate) fn look(view: &mut View, place: u32, word: u64) -> Result<(), OutOfMemory>
    requires { view.old.moves < 2 ^ 63 }
    ensures { OnOk result (view.new ≡ looks place word view.old) }
{
    view.moves += 1;
    if word == 0 {
        set_bare(&mut view.bare, place, view.moves)?;
    } else {
        add_pair(&mut view.seen, (place, word))?;
    }
    Ok(())
}

/// The seat has stored a code.
pub(crate) fn publish(view: &mut View, place: u32, code: u64) -> Result<(), OutOfMemory>
    requires { view.old.moves < 2 ^ 63 }
    ensures { OnOk result (view.new ≡ publishes place code view.old) }
{
    add_pair(&mut view.seen, (place, code))?;
    add_number(&mut view.made, code)?;
    view.moves += 1;
    Ok(())
}

/// The seat has given up a range.
pub(crate) fn settle(view: &mut View, range: (u64, u64), cursor: u64)
    requires { view.old.moves < 2 ^ 63 }
    ensures { view.new ≡ settles range cursor view.old }
{
    take_range(&mut view.held, range);
    view.cursor = cursor;
    view.moves += 1;
}

/// The seat gives some of its parts to another, whose view is the answer.
pub(crate) fn split(alloc: Global, view: &mut View, parts: u16) -> Result<View, OutOfMemory>
    requires moves { view.old.moves < 2 ^ 63 }
    requires parts { parts ≤ view.old.parts }
    ensures left { OnOk result (view.new ≡ split_left parts view.old) }
    ensures right { IfOk result (λ other. other ≡ split_right parts view.old) }
{
    let seen = Pairs::from_vec(Vec::from_slice(alloc, view.seen.as_slice())?);
    let other = View {
        parts,
        cursor: view.cursor,
        held: Ranges::from_vec(Vec::new(alloc)),
        seen,
        made: Numbers::from_vec(Vec::new(alloc)),
        moves: 0,
        bare: Pairs::from_vec(Vec::new(alloc)),
    };
    view.parts -= parts;
    view.moves += 1;
    Ok(other)
}

/// The seat has taken in another.
pub(crate) fn join(view: &mut View, other: &View) -> Result<(), OutOfMemory>
    requires moves { view.old.moves < 2 ^ 63 }
    requires parts { view.old.parts + other.now.parts < 2 ^ 16 }
    ensures { OnOk result (view.new ≡ joins view.old other.now) }
{
    add_ranges(&mut view.held, &other.held)?;
    add_pairs(&mut view.seen, &other.seen)?;
    add_numbers(&mut view.made, &other.made)?;
    view.parts += other.parts;
    if view.cursor < other.cursor {
        view.cursor = other.cursor;
    }
    view.moves += 1;
    Ok(())
}

/// What a seat without parts knows.
pub(crate) fn spent_view(alloc: Global) -> View
    ensures { result ≡ spent }
{
    View {
        parts: 0,
        cursor: 0,
        held: Ranges::from_vec(Vec::new(alloc)),
        seen: Pairs::from_vec(Vec::new(alloc)),
        made: Numbers::from_vec(Vec::new(alloc)),
        moves: 0,
        bare: Pairs::from_vec(Vec::new(alloc)),
    }
}

/// What the first seat knows at the start.
pub(crate) fn first_view(alloc: Global) -> View
    ensures { result ≡ the_first }
{
    View {
        parts: 64,
        cursor: 0,
        held: Ranges::from_vec(Vec::new(alloc)),
        seen: Pairs::from_vec(Vec::new(alloc)),
        made: Numbers::from_vec(Vec::new(alloc)),
        moves: 0,
        bare: Pairs::from_vec(Vec::new(alloc)),
    }
}
