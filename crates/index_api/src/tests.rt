// Where each way leads, and the order of the indexes.
use super::*;
use std::test::Fail;

#[test]
fn indexes_have_places(rt: HostRuntime) -> Result<(), Fail> {
    let rows: [(Via, Option<(Kind, u32)>); 5] = [
        (Via::Data, None),
        (Via::A(2), Some((Kind::A, 2))),
        (Via::One, Some((Kind::One, 0))),
        (Via::Fb, Some((Kind::Fb, 0))),
        (Via::B(1), Some((Kind::B, 1))),
    ];
    for (via, place) in rows {
        assert_eq!(rt; via.place(), place, "{via:?}");
    }
    Ok(())
}

#[test]
fn indexes_are_listed(rt: HostRuntime) -> Result<(), Fail> {
    let rows: [(u32, Option<Via>); 7] = [
        (0, Some(Via::A(0))),
        (2, Some(Via::A(2))),
        (3, Some(Via::One)),
        (4, Some(Via::Fb)),
        (5, Some(Via::B(0))),
        (7, Some(Via::B(2))),
        (8, None),
    ];
    for (n, via) in rows {
        assert_eq!(rt; Via::nth(n, 2), via, "{n}");
    }
    Ok(())
}
