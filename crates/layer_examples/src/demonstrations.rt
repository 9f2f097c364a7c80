//! The files of demonstrations.

use gadget_maker::{isw, refresh};
use std::test::Fail;

#[test]
fn makes_the_multiplication_of_two_shares(rt: HostRuntime) -> Result<(), Fail> {
    let text = isw(rt.alloc(), 2)?;
    let wanted = "#SHARES 2\n#IN a b\n#RANDOMS r01\n#OUT c\np00 = a0 * b0\np01 = a0 * b1\n\
        p10 = a1 * b0\np11 = a1 * b1\nu01 = r01 + p01\nr10 = u01 + p10\nc0 = p00 + r01\nc1 = p11 + r10\n";
    assert_eq!(rt; text.as_slice(), wanted.as_bytes());
    Ok(())
}

#[test]
fn makes_the_refresh_of_three_shares(rt: HostRuntime) -> Result<(), Fail> {
    let text = refresh(rt.alloc(), 3)?;
    let wanted = "#SHARES 3\n#IN a\n#RANDOMS r01 r02 r12\n#OUT d\ns01 = a0 + r01\nd0 = s01 + r02\n\
        s10 = a1 + r01\nd1 = s10 + r12\ns20 = a2 + r02\nd2 = s20 + r12\n";
    assert_eq!(rt; text.as_slice(), wanted.as_bytes());
    Ok(())
}
