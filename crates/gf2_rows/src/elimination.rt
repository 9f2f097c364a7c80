//! Gaussian elimination: the kernel is what each row makes cancel with those before it.

ghost use Rattle.std.specs.Prelude.{◌≡◌, ◌≤◌, ◌<◌, ◌^◌, length};
ghost use Rattle.std.specs.List.{All};
ghost use Rattle.gf2_rows.specs.Combinations.{most_rows, Cancels, AreIndependent, SpanCancelling};

use crate::MOST_ROWS;
use crate::kernels::Kernel;
use crate::row_stack::RowStack;
use arrayvec::ArrayVec;

// Pushes the rows onto an empty stack, and keeps each mask that this finds.
fn eliminate(rows: &[u128], stack: &mut RowStack, found: &mut ArrayVec<u64, MOST_ROWS>)
    requires { length rows.now ≤ most_rows }
    ensures below { All (λ mask. mask < 2 ^ length rows.now) found.new.items }
    ensures cancel { All (Cancels rows.now) found.new.items }
    ensures independent { AreIndependent found.new.items }
    ensures whole { SpanCancelling rows.now found.new.items }
{
    stack.truncate(0);
    found.clear();
    for &row in rows {
        if let Some(mask) = stack.push(row) {
            found.push(mask);
        }
    }
}

/// Finds a basis of the combinations of the rows that sum to zero, without carry. Bit j of a mask
/// stands for row j. The masks that `out` had before are gone, and the new ones come in no order that
/// a caller may rely on.
pub fn kernel(rows: &[u128], out: &mut Kernel)
    requires { length rows.now ≤ most_rows }
    ensures below { All (λ mask. mask < 2 ^ length rows.now) out.new }
    ensures cancel { All (Cancels rows.now) out.new }
    ensures independent { AreIndependent out.new }
    ensures whole { SpanCancelling rows.now out.new }
{
    eliminate(rows, &mut out.stack, &mut out.found);
}
