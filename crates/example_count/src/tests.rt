// How lines are counted.
use super::*;
use std::process::Abort;
use std::test::Fail;

#[test]
fn lines_end_at_lf_and_at_cr(rt: HostRuntime) -> Result<(), Fail> {
    let mut text = b"# one\r\n# two\r\r<http://e/a> <http://e/p> _:b .\nfive\n".as_slice();
    assert_eq!(rt; count_all(rt.alloc(), &mut text)?, Count::BadLine(5));
    Ok(())
}
