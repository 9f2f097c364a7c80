//! The codes of tuples, and of all their subsets.

ghost use Rattle.std.specs.Prelude.{◌≡◌, ◌↔◌, ℕ, ◌+◌, ◌*◌, ◌≤◌, ◌<◌, ◌^◌, IfSome, IfNone, List, length, slice_index};
ghost use Rattle.tuple_model.specs.Limits.{most_items, most_size};
ghost use Rattle.tuple_model.specs.Tuples.{IsTuple, IsBefore, subset as subset_of};
ghost use Rattle.tuple_order.specs.Codes.{code_of, tuple_of_code, size_of_code, items_of_digits, code_with, HasRoom};

use crate::tuples::{MOST_SIZE, Tuple};

// The code of the empty tuple.
const EMPTY: u64 = 1 << 62;

// What one item more adds for the size.
const ONE_MORE: u64 = 1 << 54;

// The first digit stands from this bit on, and each further one, of so many bits, right below it.
const FIRST_DIGIT: u32 = 45;

const DIGIT_BITS: u32 = 9;

// One more than the greatest digit.
const BASE: u64 = 1 << DIGIT_BITS;

// What a digit is worth at each place. A look-up here takes less time than a shift by a size that was just computed.
const WORTHS: [u64; 6] = [1 << 45, 1 << 36, 1 << 27, 1 << 18, 1 << 9, 1];

impl Tuple {
    /// A word that orders as the tuple does.
    pub fn code(&self) -> u64
        ensures code { result ≡ code_of self.now }
        ensures tuple { IsTuple most_items most_size self.now }
    {
        let items = self.items();
        let mut code = lowest_code(items.len());
        let mut worth = 1 << FIRST_DIGIT;
        for item in items {
            code += (u64::from(*item) + 1) * worth;
            worth /= BASE;
        }
        code
    }

    /// The tuple with a code.
    pub fn of_code(code: u64) -> Option<Tuple>
        ensures code { IfSome result (λ t. code_of t ≡ code) }
        ensures tuple { IfSome result (IsTuple most_items most_size) }
        ensures none { IfNone result ((t : List ℕ) → IsTuple most_items most_size t → code_of t ≡ code → ⊥) }
    {
        let size = size_in(code);
        if size > usize::from(MOST_SIZE) {
            return None;
        }
        let mut items = [0; 6];
        read_digits(code, &mut items[..size]);
        let t = Tuple::from_items(&items[..size])?;
        if t.code() == code { Some(t) } else { None }
    }

    /// The codes of all subsets, each at its number, and 0 after the last.
    pub fn subset_codes(&self) -> [u64; 64]
        ensures codes { (k : ℕ) → k < 2 ^ length self.now → slice_index result k ≡ code_of (subset_of k self.now) }
        ensures rest { (k : ℕ) → 2 ^ length self.now ≤ k → slice_index result k ≡ 0 }
    {
        let mut codes = [0; 64];
        codes[0] = EMPTY;
        let mut known = 1;
        for item in self.items() {
            double(*item, known, &mut codes);
            known *= 2;
        }
        codes
    }
}

// Reads so many items off from the digits of a code.
fn read_digits(code: u64, items: &mut [u16])
    requires { length items.old ≤ most_size }
    ensures { items.new ≡ items_of_digits (length items.old) (2 ^ 45) code }
{
    for place in 0..items.len() {
        let bit = FIRST_DIGIT - DIGIT_BITS * place as u32;
        items[place] = ((code >> bit) % BASE).saturating_sub(1) as u16;
    }
}

/// The size that stands in a code.
pub fn size_in(code: u64) -> usize
    ensures { result ≡ size_of_code code }
{
    (code / ONE_MORE % 256) as usize
}

/// The least number that a code of a tuple of this size may have; the codes of all smaller tuples are below it.
pub fn lowest_code(size: usize) -> u64
    requires { size < 256 }
    ensures { result ≡ 2 ^ 62 + size * 2 ^ 54 }
{
    EMPTY + size as u64 * ONE_MORE
}

// After the codes of the first subsets come those of the same subsets with one item more.
fn double(item: u16, known: usize, codes: &mut [u64; 64])
    requires item { item < most_items }
    requires room { 2 * known ≤ 64 }
    requires short { (k : ℕ) → k < known → HasRoom (slice_index codes.old k) }
    ensures known { (k : ℕ) → k < known → slice_index codes.new k ≡ slice_index codes.old k }
    ensures longer { (k : ℕ) → k < known →
        slice_index codes.new (k + known) ≡ code_with (slice_index codes.old k) item }
    ensures rest { (k : ℕ) → 2 * known ≤ k → slice_index codes.new k ≡ slice_index codes.old k }
{
    for number in 0..known {
        codes[number + known] = with_item(codes[number], item);
    }
}

// The code of a tuple with one item more, above its items, from its own code.
fn with_item(code: u64, item: u16) -> u64
    requires item { item < most_items }
    requires short { HasRoom code }
    ensures { result ≡ code_with code item }
{
    code + ONE_MORE + (u64::from(item) + 1) * WORTHS[size_in(code)]
}

/// Each tuple is the one with its code, and codes are ordered as the tuples are. No code is 0 or has bit 63.
pub fn code_law()
    ensures inverse { (t : List ℕ) → IsTuple most_items most_size t → tuple_of_code (code_of t) ≡ t }
    ensures ordered { (s t : List ℕ) → IsTuple most_items most_size s → IsTuple most_items most_size t →
        IsBefore s t ↔ code_of s < code_of t }
    ensures not_zero { (t : List ℕ) → 0 < code_of t }
    ensures small { (t : List ℕ) → IsTuple most_items most_size t → code_of t < 2 ^ 63 }
{}
