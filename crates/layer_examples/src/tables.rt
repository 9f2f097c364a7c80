//! Tables and refusals worked out by hand.

use gadget_tree::read_gadget;
use std::test::Fail;
use wire_table::{WireError, WireTable};

const SQUARE: &str =
    "#SHARES 2\n#IN a b\n#RANDOMS r0\n#OUT d\nx = a0 + r0\nt = x * x\nd0 = t + b0\nd1 = a1 + r0\n";

const RANDOM_PRODUCT: &str =
    "#SHARES 2\n#IN a b\n#RANDOMS r0\n#OUT d\nx = a0 + r0\nt = x * b0\nd0 = t + b0\nd1 = a1 + r0\n";

const PRODUCT: &str = "#SHARES 2\n#IN a b\n#OUT d\nt = a0 * b1\nd0 = t + a0\nd1 = a0 + a0\n";

const DEGREE: &str = "#SHARES 2\n#IN a b\n#OUT d\nt = a0 * b0\nu = t * a1\nd0 = u\nd1 = a1\n";

#[test]
fn randoms_that_cancel_in_a_product_are_no_fault(rt: HostRuntime) -> Result<(), Fail> {
    let text = SQUARE;
    assert!(rt; text.len() <= 1_048_576);
    let gadget = read_gadget(rt.alloc(), text.as_bytes())?;
    let table = WireTable::make(rt.alloc(), &gadget)?;
    assert_eq!(rt; table.vars(), 9);
    assert_eq!(rt; table.monomials(), 4);
    assert_eq!(rt; table.shares_of(2), 1 << 16);
    assert_eq!(rt; table.random_row(5), 1);
    assert_eq!(rt; table.random_row(6), 1);
    assert_eq!(rt; table.share_row(5), [0b1].as_slice());
    assert_eq!(rt; table.share_row(6), [0b1].as_slice());
    assert_eq!(rt; table.share_row(7), [0b101].as_slice());
    assert_eq!(rt; table.uses(5), 2);
    Ok(())
}

#[test]
fn a_product_of_shares_is_a_monomial(rt: HostRuntime) -> Result<(), Fail> {
    let text = PRODUCT;
    assert!(rt; text.len() <= 1_048_576);
    let gadget = read_gadget(rt.alloc(), text.as_bytes())?;
    let table = WireTable::make(rt.alloc(), &gadget)?;
    assert_eq!(rt; table.vars(), 7);
    assert_eq!(rt; table.monomials(), 5);
    assert_eq!(rt; table.shares_of(4), (1 << 17) + 1);
    assert_eq!(rt; table.random_row(4), 0);
    assert_eq!(rt; table.share_row(4), [0b10000].as_slice());
    assert_eq!(rt; table.share_row(5), [0b10001].as_slice());
    assert_eq!(rt; table.share_row(6), [0].as_slice());
    assert_eq!(rt; table.uses(0), 4);
    assert_eq!(rt; table.uses(6), 0);
    Ok(())
}

#[test]
fn names_the_first_fault(rt: HostRuntime) -> Result<(), Fail> {
    let refused = [
        (RANDOM_PRODUCT, WireError::RandomProduct { var: 6, line: 6 }),
        (DEGREE, WireError::Degree { var: 5, line: 5 }),
    ];
    for (text, fault) in refused {
        assert!(rt; text.len() <= 1_048_576);
        let gadget = read_gadget(rt.alloc(), text.as_bytes())?;
        match WireTable::make(rt.alloc(), &gadget) {
            Ok(_) => assert!(rt; false, "{text} has a table"),
            Err(error) => assert_eq!(rt; error, fault),
        }
    }
    Ok(())
}
