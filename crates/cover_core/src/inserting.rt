//! How elements join a rising list and leave it.

ghost use Rattle.std.specs.Prelude.{◌≡◌, ◌↔◌, ℕ, ◌<◌, ◌≤◌, IsTrue, MatchOption, MatchResult, OnOk, insert, map, remove, length, slice_set};
ghost use Rattle.cover_core.specs.Core.{Has};
ghost use Rattle.cover_core.specs.Effects.{comes_first as is_lower, put_bare, put_number, put_numbers, put_pair, put_pairs, same_pair, take_out};

use crate::rows::{Numbers, Pairs, Ranges};
use mask_bytes::OutOfMemory;
use tuple_order::Range;

// What is ordered as a pair of numbers.
pub(crate) trait Pair: Copy {
    ghost use Rattle.std.specs.Prelude.{ℕ};

    ghost pair: { Self → ℕ × ℕ };

    fn pair(&self) -> (u64, u64)
        ensures { result ≡ Self.pair self.now };
}

impl Pair for (u32, u64) {
    ghost pair = { λ x. x };

    fn pair(&self) -> (u64, u64) {
        (u64::from(self.0), self.1)
    }
}

impl Pair for Range {
    ghost pair = { λ range. (range.from, range.to) };

    fn pair(&self) -> (u64, u64) {
        (self.from, self.to)
    }
}

fn is_same(x: (u64, u64), y: (u64, u64)) -> bool
    ensures { result ≡ same_pair x y }
{
    x.0 == y.0 && x.1 == y.1
}

fn comes_first(x: (u64, u64), y: (u64, u64)) -> bool
    ensures { result ≡ is_lower x y }
{
    x.0 < y.0 || (x.0 == y.0 && x.1 < y.1)
}

// Where a pair is to be inserted, as Err; where it stands already, Ok.
fn place_of<P: Pair>(items: &[P], x: (u64, u64)) -> Result<usize, usize>
    ensures { MatchResult result (λ place. put_pair x (map P.pair items.now) ≡ map P.pair items.now)
        (λ place. (place ≤ length items.now)
        × (put_pair x (map P.pair items.now) ≡ insert (map P.pair items.now) place x)) }
{
    for i in 0..items.len() {
        let here = items[i].pair();
        if is_same(x, here) {
            return Ok(i);
        }
        if comes_first(x, here) {
            return Err(i);
        }
    }
    Err(items.len())
}

// Where a number is to be inserted.
fn place_of_number(items: &[u64], x: u64) -> usize
    ensures { (result ≤ length items.now) × (put_number x items.now ≡ insert items.now result x) }
{
    for i in 0..items.len() {
        if x <= items[i] {
            return i;
        }
    }
    items.len()
}

// Where the entry of a place is, as Ok, or is to be inserted, as Err.
fn place_of_bare(items: &[(u32, u64)], x: u32) -> Result<usize, usize>
    ensures { MatchResult result
        (λ place. (place < length items.now)
        × ((move : ℕ) → put_bare x move items.now ≡ slice_set items.now place (x, move)))
        (λ place. (place ≤ length items.now)
        × ((move : ℕ) → put_bare x move items.now ≡ insert items.now place (x, move))) }
{
    for i in 0..items.len() {
        if x < items[i].0 {
            return Err(i);
        }
        if x == items[i].0 {
            return Ok(i);
        }
    }
    Err(items.len())
}

// Where a pair stands first.
pub(crate) fn index_of<P: Pair>(items: &[P], x: (u64, u64)) -> Option<usize>
    ensures { MatchOption result
        ((take_out x (map P.pair items.now) ≡ map P.pair items.now) × (Has x (map P.pair items.now) → ⊥))
        (λ place. (place < length items.now)
        × (take_out x (map P.pair items.now) ≡ remove (map P.pair items.now) place)
        × Has x (map P.pair items.now)) }
{
    for i in 0..items.len() {
        if is_same(x, items[i].pair()) {
            return Some(i);
        }
    }
    None
}

/// A number joins the list.
pub(crate) fn add_number(list: &mut Numbers, x: u64) -> Result<(), OutOfMemory>
    ensures { OnOk result (list.new ≡ put_number x list.old) }
{
    let place = place_of_number(&list.items, x);
    list.items.insert(place, x)?;
    Ok(())
}

/// All numbers of another list join the list.
pub(crate) fn add_numbers(list: &mut Numbers, other: &Numbers) -> Result<(), OutOfMemory>
    ensures { OnOk result (list.new ≡ put_numbers other.now list.old) }
{
    for place in (0..other.items.len()).rev() {
        add_number(list, other.items[place])?;
    }
    Ok(())
}

/// A place with its number joins the list, once.
pub(crate) fn add_pair(list: &mut Pairs, x: (u32, u64)) -> Result<(), OutOfMemory>
    ensures { OnOk result (list.new ≡ put_pair x list.old) }
{
    if let Err(place) = place_of(&list.items, x.pair()) {
        list.items.insert(place, x)?;
    }
    Ok(())
}

/// All pairs of another list join the list.
pub(crate) fn add_pairs(list: &mut Pairs, other: &Pairs) -> Result<(), OutOfMemory>
    ensures { OnOk result (list.new ≡ put_pairs other.now list.old) }
{
    for place in (0..other.items.len()).rev() {
        add_pair(list, other.items[place])?;
    }
    Ok(())
}

/// A range joins the list, once.
pub(crate) fn add_range(list: &mut Ranges, x: Range) -> Result<(), OutOfMemory>
    ensures { OnOk result (list.new ≡ put_pair (x.from, x.to) list.old) }
{
    if let Err(place) = place_of(&list.items, x.pair()) {
        list.items.insert(place, x)?;
    }
    Ok(())
}

/// All ranges of another list join the list.
pub(crate) fn add_ranges(list: &mut Ranges, other: &Ranges) -> Result<(), OutOfMemory>
    ensures { OnOk result (list.new ≡ put_pairs other.now list.old) }
{
    for place in (0..other.items.len()).rev() {
        add_range(list, other.items[place])?;
    }
    Ok(())
}

/// A place has this number from now on.
pub(crate) fn set_bare(list: &mut Pairs, place: u32, number: u64) -> Result<(), OutOfMemory>
    ensures { OnOk result (list.new ≡ put_bare place number list.old) }
{
    match place_of_bare(&list.items, place) {
        Ok(index) => list.items[index] = (place, number),
        Err(index) => list.items.insert(index, (place, number))?,
    }
    Ok(())
}

/// A range leaves the list, where it is there.
pub(crate) fn take_range(list: &mut Ranges, x: (u64, u64))
    ensures { list.new ≡ take_out x list.old }
{
    if let Some(place) = index_of(&list.items, x) {
        list.items.remove(place);
    }
}
