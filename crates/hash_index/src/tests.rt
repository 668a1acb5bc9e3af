// Items with one hash and with others, few and many.
use super::*;
use std::process::Abort;
use std::test::Fail;

// Puts in the numbers from 0 on, each with half of it as its hash.
fn fill(rt: &impl Abort, index: &mut HashIndex<u32>, count: u32) -> Result<(), Fail> {
    for n in 0..count {
        assert_eq!(rt; index.push(n / 2, n)?, n, "at {n}");
    }
    Ok(())
}

#[test]
fn numbers_with_a_hash_come_newest_first(rt: HostRuntime) -> Result<(), Fail> {
    let mut index = HashIndex::new(rt.alloc())?;
    fill(&rt, &mut index, 100)?;
    assert_eq!(rt; index.len(), 100);
    assert_eq!(rt; index.item(15), 15);
    assert_eq!(rt; index.newest(7), Some(15));
    assert_eq!(rt; index.older(15), Some(14));
    assert_eq!(rt; index.older(14), None);
    assert_eq!(rt; index.newest(50), None);
    assert_eq!(rt; index.from(15, 7), Some(15));
    assert_eq!(rt; index.head(7).is_some(), true);
    Ok(())
}
