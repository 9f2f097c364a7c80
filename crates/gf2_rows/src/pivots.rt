//! Combinations of rows, and their reduction by others in echelon form.

ghost use Rattle.std.specs.Prelude.{◌≡◌, ◌<◌};
ghost use Rattle.std.specs.List.{All};
ghost use Rattle.gf2_rows.specs.Reduction.{reduced_by};

/// Some of the rows, by their mask, with their sum.
#[derive(Clone, Copy)]
pub struct Combination {
    pub mask: u64,
    pub total: u128,
}

/// A combination in echelon form, with the place of its pivot: a bit that it has and that those
/// after it don't.
#[derive(Clone, Copy)]
pub struct Pivot {
    pub row: Combination,
    pub bit: u32,
}

/// The combination without the bits of the pivots.
pub fn reduced(pivots: &[Pivot], mut row: Combination) -> Combination
    requires { All (λ p. p.bit < 128) pivots.now }
    ensures { result ≡ reduced_by pivots.now row }
{
    for pivot in pivots {
        if (row.total >> pivot.bit) & 1 == 1 {
            row.mask ^= pivot.row.mask;
            row.total ^= pivot.row.total;
        }
    }
    row
}
