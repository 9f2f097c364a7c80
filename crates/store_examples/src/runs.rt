//! Runs of steps, worked out by hand. Two items are asked of, at most both at once, and what fails is the first of them
//! alone, and both. The four tuples have the ranks 0 to 3: no item, the first, the second, both. The table has four
//! words, and the paths of both failing tuples begin at place 2.

ghost use Rattle.std.specs.Prelude.{◌^◌, ◌<◌, length};

use crate::table::Table;
use cover_core::{At, CoreError, Kind, State, View, replay};
use std::alloc::Global;
use std::test::Fail;
use tuple_order::{Range, Tuple};

// The code of the first item alone, and that of both.
const ONE: u64 = 0x4040_2000_0000_0000;

const BOTH: u64 = 0x4080_2020_0000_0000;

// What a seat that has all parts, and no range left to settle, should know at the end.
#[derive(Drop)]
struct Seat<'a> {
    seen: &'a [(u32, u64)],
    made: &'a [u64],
    moves: u64,
    bare: &'a [(u32, u64)],
}

fn run(alloc: Global, kinds: &[(u32, Kind)]) -> Result<State, CoreError>
    requires { length kinds.now < 2 ^ 32 }
{
    let table = Table {
        items: 2,
        size: 2,
        failing: &[&[0], &[0, 1]],
    };
    replay(alloc, &table, 4, kinds)
}

fn one() -> Tuple {
    Tuple::from_items(&[0]).unwrap_or(Tuple::empty())
}

fn both() -> Tuple {
    Tuple::from_items(&[0, 1]).unwrap_or(Tuple::empty())
}

fn stores(place: u32, tuple: Tuple) -> Kind {
    Kind::Publish { place, tuple }
}

fn settles(from: u64, to: u64) -> Kind
    requires { from < to }
{
    Kind::Settle {
        range: Range { from, to },
    }
}

// Whether the view of a seat that has claimed all is as it should be.
fn knows(view: &View, want: &Seat) -> bool {
    view.parts == 64
        && view.cursor == 4
        && view.held.as_slice().is_empty()
        && view.seen.as_slice() == want.seen
        && view.made.as_slice() == want.made
        && view.moves == want.moves
        && view.bare.as_slice() == want.bare
}

// Whether another seat has taken in the one with this view.
fn is_spent(view: &View) -> bool {
    view.parts == 0
        && view.cursor == 0
        && view.held.as_slice().is_empty()
        && view.seen.as_slice().is_empty()
        && view.made.as_slice().is_empty()
        && view.moves == 0
        && view.bare.as_slice().is_empty()
}

// Whether a state at the end is as it should be, whole: the words, the first seat, and so many others, which are spent.
fn is(state: &State, words: &[u64], first: &Seat, spent: usize) -> bool {
    let views = state.views.as_slice();
    if views.len() != spent.saturating_add(1) || !knows(&views[0], first) {
        return false;
    }
    for view in &views[1..] {
        if !is_spent(view) {
            return false;
        }
    }
    state.cursor == 4 && state.words.as_slice() == words
}

#[test]
fn one_seat_stores_both_and_settles_all(rt: HostRuntime) -> Result<(), Fail> {
    let kinds = [
        (0, Kind::Claim { to: 4 }),
        (0, stores(2, both())),
        // The place is filled, so this is a look.
        (0, stores(2, one())),
        (0, stores(3, one())),
        (0, settles(0, 4)),
    ];
    let end = run(rt.alloc(), &kinds)?;
    let seat = Seat {
        seen: &[(2, BOTH), (3, ONE)],
        made: &[ONE, BOTH],
        moves: 5,
        bare: &[],
    };
    assert!(rt; is(&end, &[0, 0, BOTH, ONE], &seat, 0));
    Ok(())
}

#[test]
fn no_range_with_an_unseen_failing_tuple_is_settled(rt: HostRuntime) -> Result<(), Fail> {
    let kinds = [
        (0, Kind::Claim { to: 4 }),
        (0, stores(2, both())),
        (0, settles(0, 4)),
    ];
    assert!(rt; matches!(&run(rt.alloc(), &kinds), Err(CoreError::NotAllowed(2))));
    Ok(())
}

#[test]
fn no_seat_claims_past_the_last_rank_or_joins_itself(rt: HostRuntime) -> Result<(), Fail> {
    let far = [(0, Kind::Claim { to: 5 })];
    assert!(rt; matches!(&run(rt.alloc(), &far), Err(CoreError::NotAllowed(0))));
    let itself = [(0, Kind::Join { from: 0 })];
    assert!(rt; matches!(&run(rt.alloc(), &itself), Err(CoreError::NotAllowed(0))));
    Ok(())
}

#[test]
fn a_publication_meets_the_code_of_another_seat(rt: HostRuntime) -> Result<(), Fail> {
    let kinds = [
        (0, Kind::Split { parts: 32 }),
        (0, Kind::Claim { to: 3 }),
        (1, Kind::Look(At::Cursor)),
        (1, Kind::Claim { to: 4 }),
        (1, stores(2, both())),
        // It sees there what seat 1 stored, and goes on to the next place.
        (0, stores(2, one())),
        (0, stores(3, one())),
        (0, settles(0, 3)),
        (1, settles(3, 4)),
        (0, Kind::Join { from: 1 }),
    ];
    let end = run(rt.alloc(), &kinds)?;
    let seat = Seat {
        seen: &[(2, BOTH), (3, ONE)],
        made: &[ONE, BOTH],
        moves: 6,
        bare: &[],
    };
    assert!(rt; is(&end, &[0, 0, BOTH, ONE], &seat, 1));
    Ok(())
}

#[test]
fn a_join_brings_open_ranges(rt: HostRuntime) -> Result<(), Fail> {
    let kinds = [
        (0, Kind::Split { parts: 16 }),
        (1, Kind::Claim { to: 2 }),
        // The cursor has moved since seat 0 saw it, so it only learns where it is.
        (0, Kind::Claim { to: 4 }),
        (0, Kind::Claim { to: 4 }),
        (1, Kind::Look(At::Place(2))),
        (1, stores(2, one())),
        (0, Kind::Join { from: 1 }),
        (0, Kind::Look(At::Place(0))),
        (0, settles(2, 4)),
        (0, settles(0, 2)),
        (0, Kind::Look(At::Cursor)),
    ];
    let end = run(rt.alloc(), &kinds)?;
    let seat = Seat {
        seen: &[(2, ONE)],
        made: &[ONE],
        moves: 8,
        bare: &[(0, 5)],
    };
    assert!(rt; is(&end, &[0, 0, ONE, 0], &seat, 1));
    Ok(())
}

#[test]
fn what_another_seat_saw_settles_no_range(rt: HostRuntime) -> Result<(), Fail> {
    let kinds = [
        (0, Kind::Split { parts: 32 }),
        (0, Kind::Claim { to: 2 }),
        (1, Kind::Look(At::Cursor)),
        (1, Kind::Claim { to: 4 }),
        (0, Kind::Look(At::Place(2))),
        (0, stores(2, one())),
        (0, settles(0, 2)),
        (1, Kind::Look(At::Place(3))),
        (1, Kind::Look(At::Cursor)),
        // Both items fail, and seat 0 alone has seen the first of them stored.
        (1, settles(2, 4)),
        (0, Kind::Join { from: 1 }),
    ];
    assert!(rt; matches!(&run(rt.alloc(), &kinds), Err(CoreError::NotAllowed(9))));
    Ok(())
}
