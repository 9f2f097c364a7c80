//! Counts that rise.

ghost use Rattle.std.specs.Prelude.{◌≡◌, [], ◌∷◌};
ghost use Rattle.tallies.specs.Counting.{raised_at};

/// Raises the count at a place, if there is such a place. The greatest number of 64 bits stays. A tally by sizes counts
/// a tuple by it.
pub fn raise(counts: &mut [u64], place: usize)
    ensures { counts.new ≡ raised_at (place ∷ []) counts.old }
{
    if place < counts.len() {
        counts[place] = counts[place].saturating_add(1);
    }
}

/// Raises the count at each of these places.
pub(crate) fn raise_each(counts: &mut [u64], places: &[u16])
    ensures { counts.new ≡ raised_at places.now counts.old }
{
    for place in places {
        raise(counts, usize::from(*place));
    }
}
