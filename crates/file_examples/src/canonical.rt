//! The canonical text of gadgets.

use gadget_tree::{VarKind, print_gadget, read_gadget};
use std::test::Fail;

// The multiplication of Ishai, Sahai and Wagner, one line an output share.
const MULTIPLICATION: &str =
    "#ORDER 1\r\n#SHARES 2\r\n#IN a b\r\n#RANDOMS r0\r\n#OUT c\r\nc0 = a0 * b0 + r0\r\nc1 = a1 * b1 + ((r0 + a0 * b1) + a1 * b0)\r\n";

// Files, and the canonical texts of their gadgets.
const TEXTS: [(&str, &str); 3] = [
    (
        MULTIPLICATION,
        "#SHARES 2\n#IN a b\n#RANDOMS r0\n#OUT c\nc0.1 = a0 * b0\nc0 = c0.1 + r0\nc1.1 = a1 * b1\nc1.2 = a0 * b1\nc1.3 = r0 + c1.2\nc1.4 = a1 * b0\nc1.5 = c1.3 + c1.4\nc1 = c1.1 + c1.5\n",
    ),
    // Both operations group to the left, and products bind tighter than sums.
    (
        "#OUT d\n#IN a\n#SHARES 1\n#RANDOMS\nx = a0+a0*a0*a0+a0\nd0 = (((x)))",
        "#SHARES 1\n#IN a\n#OUT d\nx.1 = a0 * a0\nx.2 = x.1 * a0\nx.3 = a0 + x.2\nx = x.3 + a0\nd0 = x\n",
    ),
    // The left operand's operations come first.
    (
        "#SHARES 1\n#IN a\n#OUT d\nd0 = (a0 + a0) * (a0 * a0)\n",
        "#SHARES 1\n#IN a\n#OUT d\nd0.1 = a0 + a0\nd0.2 = a0 * a0\nd0 = d0.1 * d0.2\n",
    ),
];

#[test]
fn canonical_text_has_each_operation_on_a_line(rt: HostRuntime) -> Result<(), Fail> {
    let alloc = rt.alloc();
    for (file, text) in TEXTS {
        assert!(rt; file.len() <= 1_048_576);
        let gadget = read_gadget(alloc, file.as_bytes())?;
        assert_eq!(rt; print_gadget(alloc, &gadget)?.as_slice(), text.as_bytes());
    }
    Ok(())
}

#[test]
fn canonical_text_is_its_own(rt: HostRuntime) -> Result<(), Fail> {
    let alloc = rt.alloc();
    for (_, text) in TEXTS {
        assert!(rt; text.len() <= 1_048_576);
        let gadget = read_gadget(alloc, text.as_bytes())?;
        assert_eq!(rt; print_gadget(alloc, &gadget)?.as_slice(), text.as_bytes());
    }
    Ok(())
}

// The variables of the multiplication: the name, what it is, and the line that made it.
const VARIABLES: [(&str, VarKind, u32); 13] = [
    ("a0", VarKind::Share { input: 0, index: 0 }, 3),
    ("a1", VarKind::Share { input: 0, index: 1 }, 3),
    ("b0", VarKind::Share { input: 1, index: 0 }, 3),
    ("b1", VarKind::Share { input: 1, index: 1 }, 3),
    ("r0", VarKind::Random(0), 4),
    ("c0.1", VarKind::Product(0, 2), 6),
    ("c0", VarKind::Sum(5, 4), 6),
    ("c1.1", VarKind::Product(1, 3), 7),
    ("c1.2", VarKind::Product(0, 3), 7),
    ("c1.3", VarKind::Sum(4, 8), 7),
    ("c1.4", VarKind::Product(1, 2), 7),
    ("c1.5", VarKind::Sum(9, 10), 7),
    ("c1", VarKind::Sum(7, 11), 7),
];

#[test]
fn variables_stand_in_the_order_of_their_operations(rt: HostRuntime) -> Result<(), Fail> {
    assert!(rt; MULTIPLICATION.len() <= 1_048_576);
    let gadget = read_gadget(rt.alloc(), MULTIPLICATION.as_bytes())?;
    assert_eq!(rt; gadget.shares(), 2);
    assert_eq!(rt; gadget.randoms(), 1);
    assert_eq!(rt; gadget.inputs().len(), 2);
    assert_eq!(rt; gadget.outputs().len(), 1);
    assert_eq!(rt; gadget.vars().len(), VARIABLES.len());
    for (var, (name, kind, line)) in gadget.vars().iter().zip(VARIABLES) {
        assert_eq!(rt; var.name.bytes(), name.as_bytes());
        assert_eq!(rt; var.kind, kind);
        assert_eq!(rt; var.line, line);
    }
    assert_eq!(rt; gadget.out_of(6), Some((0, 0)));
    assert_eq!(rt; gadget.out_of(12), Some((0, 1)));
    assert_eq!(rt; gadget.out_of(11), None);
    Ok(())
}
