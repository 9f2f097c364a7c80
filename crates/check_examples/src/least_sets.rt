//! The least sets of input shares from which variables can be simulated.

ghost use Rattle.std.specs.Prelude.{◌<◌, All, IsTrue, length};

use crate::fixture::{MULTIPLICATION, REFRESH};
use gadget_tree::read_gadget;
use mask_bytes::OutOfMemory;
use needed::{Elimination, Scratch, needed};
use std::alloc::Global;
use std::test::Fail;
use wire_table::WireTable;

// The multiplication of five shares, which has 85 variables.
const FIVE_SHARES: &str =
    "#SHARES 5\n#IN a b\n#RANDOMS r01 r02 r03 r04 r12 r13 r14 r23 r24 r34\n#OUT c\n\
    c0 = a0 * b0 + r01 + r02 + r03 + r04\n\
    c1 = a1 * b1 + (r01 + a0 * b1 + a1 * b0) + r12 + r13 + r14\n\
    c2 = a2 * b2 + (r02 + a0 * b2 + a2 * b0) + (r12 + a1 * b2 + a2 * b1) + r23 + r24\n\
    c3 = a3 * b3 + (r03 + a0 * b3 + a3 * b0) + (r13 + a1 * b3 + a3 * b1) + (r23 + a2 * b3 + a3 * b2) + r34\n\
    c4 = a4 * b4 + (r04 + a0 * b4 + a4 * b0) + (r14 + a1 * b4 + a4 * b1) + (r24 + a2 * b4 + a4 * b2) + (r34 + a3 * b4 + a4 * b3)\n";

// Gadgets, variables of each, and the shares that they need: bit 16 * input + index for each. Those of `REFRESH` are a0, a1,
// r0, d0 and d1, and those of `MULTIPLICATION` a0, a1, b0, b1, r01, p00, p01, p10, p11, u01, r10, c0 and c1.
const LEAST: [(&str, &[u16], u64); 9] = [
    (REFRESH, &[3], 0),
    (REFRESH, &[3, 4], 3),
    (REFRESH, &[2, 4], 2),
    (REFRESH, &[], 0),
    // One product of shares needs both.
    (MULTIPLICATION, &[6], 0x2_0001),
    // The random hides it.
    (MULTIPLICATION, &[9], 0),
    // It cancels in the sum of the random and the masked product, and in that of both output shares.
    (MULTIPLICATION, &[4, 9], 0x2_0001),
    (MULTIPLICATION, &[11, 12], 0x3_0003),
    // What is left of the two masked products is the second product alone.
    (MULTIPLICATION, &[9, 10], 0x1_0002),
];

// Whether these are variables of the table.
fn are_variables(table: &WireTable, vars: &[u16]) -> bool
    ensures { IsTrue result → All (λ v. v < length table.now.random_rows) vars.now }
{
    vars.iter().all(|var| *var < table.vars())
}

#[test]
fn variables_need_the_shares_of_the_products_that_no_random_hides(
    rt: HostRuntime,
) -> Result<(), Fail> {
    let alloc = rt.alloc();
    for (file, vars, least) in LEAST {
        assert!(rt; file.len() <= 1_048_576);
        let gadget = read_gadget(alloc, file.as_bytes())?;
        let table = WireTable::make(alloc, &gadget)?;
        let mut scratch = Scratch::make(alloc, &table)?;
        assert!(rt; vars.len() <= 64);
        assert!(rt; are_variables(&table, vars));
        assert_eq!(rt;
            needed(&table, &mut scratch, vars),
            least,
            "{vars:?} of {file}"
        );
    }
    Ok(())
}

// The next of some shuffled numbers: a linear congruential generator, whose high bits vary most.
fn shuffled(number: u64) -> u64 {
    number
        .wrapping_mul(6_364_136_223_846_793_005)
        .wrapping_add(1_442_695_040_888_963_407)
}

// Whether an elimination gives `count` shuffled lists of at most seven variables the answers that a new one gives each.
// Each list but the first has a prefix of the last one, of any length, and one variable more.
fn agrees_with_new_ones(alloc: Global, table: &WireTable, count: u32) -> Result<bool, OutOfMemory> {
    let mut scratch = Scratch::make(alloc, table)?;
    let mut elimination = Elimination::make(alloc, table)?;
    let mut vars = [0u16; 7];
    let mut held = 0;
    let mut number = 1;
    for _ in 0..count {
        number = shuffled(number);
        let kept = (number >> 48) as usize % (held + 1).min(7);
        vars[kept] = ((number >> 32) % 85) as u16;
        held = kept + 1;
        let asked = &vars[..held];
        if !are_variables(table, asked) {
            return Ok(false);
        }
        elimination.truncate(kept);
        elimination.extend(&asked[kept..]);
        if elimination.least() != needed(table, &mut scratch, asked) {
            return Ok(false);
        }
    }
    Ok(true)
}

#[test]
fn an_elimination_answers_whatever_was_asked_before(rt: HostRuntime) -> Result<(), Fail> {
    let alloc = rt.alloc();
    assert!(rt; FIVE_SHARES.len() <= 1_048_576);
    let gadget = read_gadget(alloc, FIVE_SHARES.as_bytes())?;
    let table = WireTable::make(alloc, &gadget)?;
    assert_eq!(rt; table.vars(), 85);
    assert!(rt; agrees_with_new_ones(alloc, &table, 10_000)?);
    Ok(())
}
