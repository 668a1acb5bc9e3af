// Keys that come once and again, few and many.
ghost use Rattle.std.specs.Prelude.{◌<◌, length};

use super::*;
use std::process::Abort;
use std::test::Fail;

#[test]
fn keys_are_numbered_as_they_come(rt: HostRuntime) -> Result<(), Fail> {
    let mut table = KeyTable::new(rt.alloc())?;
    let one = [7];
    let two = [7, 9];
    let turned = [9, 7];
    let rows = [
        (&one[..], 0, 1),
        (&two[..], 1, 2),
        (&[], 2, 3),
        (&two[..], 1, 3),
        (&turned[..], 3, 4),
        (&one[..], 0, 4),
    ];
    for (key, number, count) in rows {
        assert_eq!(rt; table.intern(key)?, number, "at key {number} of {count}");
        assert_eq!(rt; table.len(), count, "at key {number} of {count}");
        assert_eq!(rt; table.find(key), Some(number), "at key {number} of {count}");
    }
    assert_eq!(rt; table.find(&[9]), None);
    assert_eq!(rt; table.find(&[7, 9, 0]), None);
    Ok(())
}

// Interns the keys [n, n / 2], which have the numbers from 0 on.
fn fill(rt: &impl Abort, table: &mut KeyTable, count: u32) -> Result<(), Fail> {
    for n in 0..count {
        assert_eq!(rt; table.intern(&[n, n / 2])?, n, "at {n}");
    }
    Ok(())
}

#[test]
fn many_keys_stay(rt: HostRuntime) -> Result<(), Fail> {
    let mut table = KeyTable::new(rt.alloc())?;
    fill(&rt, &mut table, 100)?;
    fill(&rt, &mut table, 100)?;
    assert_eq!(rt; table.len(), 100);
    assert_eq!(rt; table.key(99), &[99, 49][..]);
    assert_eq!(rt; table.find(&[99, 50]), None);
    Ok(())
}

#[test]
fn numbers_stand_once(rt: HostRuntime) -> Result<(), Fail> {
    let mut numbers = vec![in rt.alloc(); 3, 1, 3, 2, 1]?;
    sort_dedup(&mut numbers);
    assert_eq!(rt; &numbers[..], &[1, 2, 3][..]);
    Ok(())
}
