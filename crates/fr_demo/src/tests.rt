//! What no clause says: that there is a script where there is memory.

use super::*;
use std::test::Fail;

#[test]
fn scripts_follow_their_seeds(rt: HostRuntime) -> Result<(), Fail> {
    for (seed, first, last) in [
        (0, b"\nend\neq t*b q*c\neq a*p d*c\n", b"\neq b*p b*d\n"),
        (1, b"\nend\neq t*d d*p\neq p*d c*c\n", b"\neq d*q c*d\n"),
        (
            u32::MAX,
            b"\nend\neq t*q q*a\neq b*q c*d\n",
            b"\neq q*t t*a\n",
        ),
    ] {
        let script = demo_script(rt.alloc(), seed)?;
        assert_eq!(rt; script.len(), 21_991);
        assert!(rt; script.starts_with(b"group\na = (1,2)\nb = <a,c>\n"));
        assert_eq!(rt; &script[85..112], first.as_slice());
        assert!(rt; script.ends_with(last));
    }
    Ok(())
}
