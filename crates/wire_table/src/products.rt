//! The products of input shares that the variables of a gadget need.

ghost use Rattle.std.specs.Prelude.{◌≡◌, ℕ, Contains, IfOk};
ghost use Rattle.std.specs.List.Sorted.{IsStrictlyIncreasing};
ghost use Rattle.wire_table.specs.Terms.{products_of};

use crate::terms::Terms;
use std::alloc::{AllocError, Global};

// The products of all terms, as often as they arise.
fn all_products(alloc: Global, terms: &[Terms]) -> Result<Vec<u64>, AllocError>
    ensures { IfOk result (λ products. products.items ≡ products_of terms.now) }
{
    let mut products = Vec::new(alloc);
    for t in terms {
        products.extend_from_slice(&t.products)?;
    }
    Ok(products)
}

/// The products of all terms, each once, in rising order.
pub(crate) fn products(alloc: Global, terms: &[Terms]) -> Result<Vec<u64>, AllocError>
    ensures rising { IfOk result (λ products. IsStrictlyIncreasing products.items) }
    ensures all { IfOk result (λ products. (set : ℕ) →
        Contains (products_of terms.now) set → Contains products.items set) }
    ensures no_others { IfOk result (λ products. (set : ℕ) →
        Contains products.items set → Contains (products_of terms.now) set) }
{
    let mut products = all_products(alloc, terms)?;
    products.sort_unstable();
    products.dedup();
    Ok(products)
}
