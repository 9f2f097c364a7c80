//! How many tuples there are.

ghost use Rattle.std.specs.Prelude.{◌≡◌, ◌≤◌, length};
ghost use Rattle.tuple_model.specs.Limits.{most_items, most_size};
ghost use Rattle.tuple_model.specs.Tuples.{rising, tuples};
ghost use Rattle.tuple_order.specs.Counts.{fewer as number_of_fewer};

/// The number of tuples of at most `size` of the items numbered below `items`.
pub fn count(items: u16, size: u8) -> u64
    requires items_at_most { items ≤ most_items }
    requires size_at_most { size ≤ most_size }
    ensures { result ≡ length (tuples items size) }
{
    let mut total: u64 = 1;
    for smaller in 0..size {
        total += count_of_size(items, smaller + 1);
    }
    total
}

/// The number of tuples of exactly `size` items.
pub fn count_of_size(items: u16, size: u8) -> u64
    requires items_at_most { items ≤ most_items }
    requires size_at_most { size ≤ most_size }
    ensures { result ≡ length (rising size items 0) }
{
    let mut of_size: u64 = 1;
    for chosen in 0..size {
        // Each tuple of this size can be made longer by any item that it lacks, and each longer one comes from
        // as many tuples as it has items. So the division leaves no rest.
        let lacking = u64::from(items.saturating_sub(u16::from(chosen)));
        of_size = of_size * lacking / (u64::from(chosen) + 1);
    }
    of_size
}

/// The number of tuples of fewer than `size` items.
pub fn count_of_fewer(items: u16, size: u8) -> u64
    requires items_at_most { items ≤ most_items }
    requires size_at_most { size ≤ most_size }
    ensures { result ≡ number_of_fewer items size }
{
    if size == 0 { 0 } else { count(items, size - 1) }
}
