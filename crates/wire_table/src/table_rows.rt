//! The rows of a table.

ghost use Rattle.std.specs.Prelude.{◌≡◌, ◌<◌, ◌≤◌, ◌/◌, length, map, Contains, IfOk, slice_index, replicate};
ghost use Rattle.std.specs.List.{All, AllZip};
ghost use Rattle.std.specs.List.Sorted.{IsStrictlyIncreasing};
ghost use Rattle.wire_table.specs.Tables.{most_products, words_for};
ghost use Rattle.wire_table.specs.ShareRows.{flipped, IsShareRow};

use crate::terms::Terms;
use std::alloc::{AllocError, Global};

// Flips a bit of a row.
fn flip(row: &mut [u64], place: usize)
    requires { place / 64 < length row.old }
    ensures { row.new ≡ flipped row.old place }
{
    row[place / 64] ^= 1 << (place % 64);
}

// A row without bits, for so many products.
fn zero_row(alloc: Global, products: usize) -> Result<Vec<u64>, AllocError>
    requires { products ≤ most_products }
    ensures { IfOk result (λ row. row.items ≡ replicate (words_for products) 0) }
{
    vec![in alloc; 0; (products + 63) / 64]
}

// The place of a product.
fn place(products: &[u64], set: u64) -> usize
    requires rising { IsStrictlyIncreasing products.now }
    requires among { Contains products.now set }
    ensures within { result < length products.now }
    ensures at { slice_index products.now result ≡ set }
{
    products.binary_search(&set).unwrap()
}

// The row with the bits of the places of some products.
fn share_row(alloc: Global, products: &[u64], sets: &[u64]) -> Result<Vec<u64>, AllocError>
    requires few { length products.now ≤ most_products }
    requires rising { IsStrictlyIncreasing products.now }
    requires among { All (Contains products.now) sets.now }
    ensures { IfOk result (λ row. IsShareRow products.now sets.now row.items) }
{
    let mut row = zero_row(alloc, products.len())?;
    for set in sets {
        flip(&mut row, place(products, *set));
    }
    Ok(row)
}

/// The share row of each variable.
pub(crate) fn share_rows(
    alloc: Global,
    products: &[u64],
    terms: &[Terms],
) -> Result<Vec<Vec<u64>>, AllocError>
    requires few { length products.now ≤ most_products }
    requires rising { IsStrictlyIncreasing products.now }
    requires among { All (λ t. All (Contains products.now) t.products.items) terms.now }
    ensures { IfOk result
        (λ rows. AllZip (λ t row. IsShareRow products.now t.products.items row.items) terms.now rows.items) }
{
    let mut rows = Vec::new(alloc);
    for t in terms {
        rows.push(share_row(alloc, products, &t.products)?)?;
    }
    Ok(rows)
}

/// The random row of each variable.
pub(crate) fn random_rows(alloc: Global, terms: &[Terms]) -> Result<Vec<u128>, AllocError>
    ensures { IfOk result (λ rows. rows.items ≡ map (λ t. t.randoms) terms.now) }
{
    terms.iter().map(|t| t.randoms).collect(alloc)
}
