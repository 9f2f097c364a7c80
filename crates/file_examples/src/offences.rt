//! Files with offences, and the first one, which decides.

use gadget_text::{Header, MOST_FILE_BYTES};
use gadget_tree::{FileError, What, read_gadget};
use std::test::Fail;

// Files with one offence.
const OFFENCES: [(&[u8], FileError); 29] = [
    (b"", FileError::HeaderMissing(Header::Shares)),
    (
        b"#SHARES 2\n#IN a\n#OUT d\n",
        FileError::OutputMissing(0, 0),
    ),
    (
        b"#SHARES 2\n#IN a\n#RANDOMS r0\n#OUT d\nd0 = a0 + r0\nd1 = a1 + r",
        FileError::Unknown(6),
    ),
    (
        b"#SHARES 2\n#IN a\n#RANDOMS r0\n#OUT d\nd0 = a0 + r0\n",
        FileError::OutputMissing(0, 1),
    ),
    (
        b"#SHARES 2\n#IN a\n#OUT d e\nd0 = a0\nd1 = a1\ne0 = a0\n",
        FileError::OutputMissing(1, 1),
    ),
    (
        b"#SHARES 2\n#IN a\n#RANDOMS r0\n#OUT d\nd0 = a0 + r0\nd1 = a1 + r0\nd1 = a0\n",
        FileError::NameTwice(7),
    ),
    (
        b"#SHARES 2\n#IN a\n#OUT d\nd0.1 = a0\nd0 = a0 + a0 + a1\nd1 = a1\n",
        FileError::NameTwice(5),
    ),
    (
        b"#SHARES 2\n#IN a\n#OUT d\nd0 = a0 + a0 + a1\nd0.1 = a0\nd1 = a1\n",
        FileError::NameTwice(5),
    ),
    (
        b"#SHARES 2\n#IN a\n#OUT d\nd0 = d0.1 + a0 + a1\nd1 = a1\n",
        FileError::Unknown(4),
    ),
    (
        b"#SHARES 2\n#SHARES 2\n#IN a\n#RANDOMS r0\n#OUT d\nd0 = a0 + r0\nd1 = a1 + r0\n",
        FileError::HeaderTwice(2),
    ),
    (
        b"#SHARES 0\n#IN a\n#OUT d\nd0 = a0\n",
        FileError::BadNumber(1),
    ),
    (
        b"#SHARES two\n#IN a\n#OUT d\nd0 = a0\n",
        FileError::BadNumber(1),
    ),
    (
        b"#PROFILE 2\n#SHARES 1\n#IN a\n#OUT d\nd0 = a0\n",
        FileError::BadNumber(1),
    ),
    (
        b"#SHARES 17\n#IN a\n#OUT d\nd0 = a0\n",
        FileError::TooMany(What::Shares),
    ),
    (
        b"#SHARES 340282366920938463463374607431768211457\n#IN a\n#OUT d\nd0 = a0\n",
        FileError::TooMany(What::Shares),
    ),
    (
        b"#SHARES 2\n#IN 3a\n#OUT d\nd0 = a0\n",
        FileError::BadName(2),
    ),
    (
        b"#SHARES 2\n#IN a.1\n#OUT d\nd0 = a0\n",
        FileError::BadName(2),
    ),
    (
        b"#SHARES 1\n#IN a b c d e\n#OUT x\nx0 = a0\n",
        FileError::TooMany(What::Inputs),
    ),
    (
        b"#SHARES 1\n#IN a\n#OUT x y z\nx0 = a0\n",
        FileError::TooMany(What::Outputs),
    ),
    (b"#SHARES 2\n#IN\n#OUT d\n", FileError::Syntax(2)),
    (b"#SHARES 2\n#IN#a\n#OUT d\n", FileError::Syntax(2)),
    (b"#SHARES\n#IN a\n#OUT d\n", FileError::Syntax(1)),
    (
        b"#SHARES 2\n#IN a\n#RANDOMS r0\n#OUT d\nd0 = a0 + r0\xc8\nd1 = a1\n",
        FileError::NotText(5),
    ),
    (
        b"#SHARES 2\n#IN a\n#OUT d\nd0 = a0\r\r\nd1 = a1\n",
        FileError::NotText(4),
    ),
    (
        b"#SHARES 2\n#IN a\n#RANDOMS r0\n#OUT d\nd0 = a0 +\nd1 = a1\n",
        FileError::Syntax(5),
    ),
    (
        b"#SHARES 2\n#IN a\n#OUT d\nd0 = a0 $ a1\nd1 = a1\n",
        FileError::Syntax(4),
    ),
    (b"#SHARES 2\n#IN a a\n#OUT d\n", FileError::NameTwice(2)),
    // With 11 shares, a and a1 both have a share a10.
    (b"#SHARES 11\n#IN a a1\n#OUT d\n", FileError::NameTwice(2)),
    (
        b"#SHARES 2\n#IN a\n#RANDOMS a1\n#OUT d\n",
        FileError::NameTwice(3),
    ),
];

// Files with two offences or more, and the one that decides.
const FIRST_OFFENCES: [(&[u8], FileError); 43] = [
    // A byte that is no text, before all else.
    (
        b"#SHARES 2 2\n#IN a\n#OUT d\nd0 = \x80\n",
        FileError::NotText(4),
    ),
    (b"\x80\n#SHARES 2\n=\x80\n", FileError::NotText(1)),
    // A header's words are counted, before it came before, before its number, before its names, before how many they are.
    (
        b"#SHARES 2\n#SHARES 2 3\n#IN a\n#OUT d\n",
        FileError::Syntax(2),
    ),
    (b"#SHARES x y\n#IN a\n#OUT d\n", FileError::Syntax(1)),
    (b"#SHARES 17 1\n#IN a\n#OUT d\n", FileError::Syntax(1)),
    (b"#SHARES 2\n#IN a\n#IN\n#OUT d\n", FileError::Syntax(3)),
    (
        b"#SHARES 2\n#SHARES 0\n#IN a\n#OUT d\n",
        FileError::HeaderTwice(2),
    ),
    (
        b"#SHARES 2\n#SHARES 17\n#IN a\n#OUT d\n",
        FileError::HeaderTwice(2),
    ),
    (
        b"#PROFILE 1\n#PROFILE 2\n#SHARES 2\n#IN a\n#OUT d\n",
        FileError::HeaderTwice(2),
    ),
    (
        b"#SHARES 2\n#IN a\n#IN 3a\n#OUT d\n",
        FileError::HeaderTwice(3),
    ),
    (
        b"#SHARES 2\n#IN a\n#IN a b c d e\n#OUT d\n",
        FileError::HeaderTwice(3),
    ),
    (
        b"#SHARES 2\n#IN a b c d 3e\n#OUT d\n",
        FileError::BadName(2),
    ),
    (b"#SHARES 2\n#IN a\n#OUT d 3e f\n", FileError::BadName(3)),
    // An assignment line came before, before the header came before.
    (
        b"#SHARES 1\n#IN a\n#OUT d\nd0 = a0\n#SHARES 1\n",
        FileError::Syntax(5),
    ),
    (
        b"#SHARES 1\n#IN a\n#OUT d\nd0 = a0\n#RANDOMS 3r\n",
        FileError::Syntax(5),
    ),
    // Offences of header lines, before a missing header.
    (b"#SHARES 2\n#SHARES 2\n#IN a\n", FileError::HeaderTwice(2)),
    (b"#IN a\n#OUT 3d\n", FileError::BadName(2)),
    (b"#OUT d e f\n", FileError::TooMany(What::Outputs)),
    (b"#SHARES 0\n", FileError::BadNumber(1)),
    (b"#SHARES 17\n", FileError::TooMany(What::Shares)),
    (b"#RANDOMS r\n#SHARES\n", FileError::Syntax(2)),
    // Missing headers in their order, and before names that stand twice.
    (b"#RANDOMS r\n", FileError::HeaderMissing(Header::Shares)),
    (b"#SHARES 2\n", FileError::HeaderMissing(Header::In)),
    (b"#OUT d\n#SHARES 2\n", FileError::HeaderMissing(Header::In)),
    (
        b"#SHARES 2\n#IN a a\n",
        FileError::HeaderMissing(Header::Out),
    ),
    // Names of inputs, before those of randoms, before those of outputs, in whatever order the lines stand.
    (
        b"#OUT a\n#RANDOMS a0\n#SHARES 2\n#IN a a\n",
        FileError::NameTwice(4),
    ),
    (
        b"#OUT a\n#RANDOMS a0\n#SHARES 2\n#IN a\n",
        FileError::NameTwice(2),
    ),
    (
        b"#OUT a\n#RANDOMS a2\n#SHARES 2\n#IN a\n",
        FileError::NameTwice(1),
    ),
    (
        b"#OUT d\n#RANDOMS d1\n#SHARES 2\n#IN a\n",
        FileError::NameTwice(1),
    ),
    (
        b"#OUT d\n#IN a b\n#RANDOMS b1 r r\n#SHARES 2\n",
        FileError::NameTwice(3),
    ),
    (
        b"#OUT d d\n#RANDOMS r\n#IN a\n#SHARES 2\n",
        FileError::NameTwice(1),
    ),
    (
        b"#SHARES 10\n#IN a a1\n#OUT d\n",
        FileError::OutputMissing(0, 0),
    ),
    // The headers are closed before the first assignment line is looked at.
    (
        b"#SHARES 2\n#IN a\nd0 = \n",
        FileError::HeaderMissing(Header::Out),
    ),
    (
        b"#SHARES 2\n#IN a a\n#OUT d\nd0 = zz +\n",
        FileError::NameTwice(2),
    ),
    (
        b"x = y\n#SHARES 2 2\n",
        FileError::HeaderMissing(Header::Shares),
    ),
    // Syntax, before a name that stands already, before one that stands for nothing.
    (
        b"#SHARES 1\n#IN a\n#OUT d\na0 = zz +\n",
        FileError::Syntax(4),
    ),
    (
        b"#SHARES 1\n#IN a\n#OUT d\na0 = zz\n",
        FileError::NameTwice(4),
    ),
    (
        b"#SHARES 1\n#IN a\n#OUT d\nx.1 = a0\nx = zz + a0 + a0\n",
        FileError::NameTwice(5),
    ),
    (
        b"#SHARES 1\n#IN a\n#OUT d\nx.2 = a0\nx = zz + a0 + a0\n",
        FileError::Unknown(5),
    ),
    // A line before a later one, and before an output share that is missing.
    (
        b"#SHARES 1\n#IN a\n#OUT d\nx = zz\ny = \n",
        FileError::Unknown(4),
    ),
    (
        b"#SHARES 1\n#IN a\n#OUT d\nx = a0\nx = a0\ny = zz\n",
        FileError::NameTwice(5),
    ),
    (
        b"#SHARES 1\n#IN a\n#OUT d\nx = a0\n#OUT d\n",
        FileError::Syntax(5),
    ),
    (
        b"#SHARES 1\n#IN a\n#OUT d e\ne0 = zz\n",
        FileError::Unknown(4),
    ),
];

#[test]
fn each_offence_is_named(rt: HostRuntime) -> Result<(), Fail> {
    let alloc = rt.alloc();
    for (file, error) in OFFENCES {
        assert!(rt; file.len() <= MOST_FILE_BYTES);
        assert_eq!(rt; read_gadget(alloc, file).err(), Some(error));
    }
    Ok(())
}

#[test]
fn first_offence_decides(rt: HostRuntime) -> Result<(), Fail> {
    let alloc = rt.alloc();
    for (file, error) in FIRST_OFFENCES {
        assert!(rt; file.len() <= MOST_FILE_BYTES);
        assert_eq!(rt; read_gadget(alloc, file).err(), Some(error));
    }
    Ok(())
}
