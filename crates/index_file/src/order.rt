// The order in which views stand.
ghost use Rattle.std.specs.Prelude.{◌≡◌, ◌≤◌};
ghost use Rattle.index_api.specs.declared.kinds.Via.TheVariants.{A, One, Fb, B};
ghost use Rattle.index_file.specs.Readings as readings;

use index_api::Via;

// Whether the A(i)-index of that level may stand behind the last index.
fn level_follows(k: u32, last: Option<Via>, level: u32) -> bool
    requires { k ≤ 8 }
    ensures { result ≡ readings.follows k last (A level) }
{
    match last {
        None => level == 0,
        Some(Via::A(below)) => below < level && level - below == 1 && level <= k,
        Some(Via::Data) => false,
        Some(Via::One) => false,
        Some(Via::Fb) => false,
        Some(Via::B(_)) => false,
    }
}

fn one_follows(k: u32, last: Option<Via>) -> bool
    ensures { result ≡ readings.follows k last One }
{
    match last {
        None => true,
        Some(Via::Data) => false,
        Some(Via::A(level)) => level == k,
        Some(Via::One) => false,
        Some(Via::Fb) => false,
        Some(Via::B(_)) => false,
    }
}

fn fb_follows(k: u32, last: Option<Via>) -> bool
    ensures { result ≡ readings.follows k last Fb }
{
    match last {
        None => true,
        Some(Via::Data) => false,
        Some(Via::A(level)) => level == k,
        Some(Via::One) => true,
        Some(Via::Fb) => false,
        Some(Via::B(_)) => false,
    }
}

// Whether the bounded forward and backward index of that level may stand behind the last index.
fn bounded_follows(k: u32, last: Option<Via>, level: u32) -> bool
    requires { k ≤ 8 }
    ensures { result ≡ readings.follows k last (B level) }
{
    match last {
        None => level == 0,
        Some(Via::Data) => false,
        Some(Via::A(below)) => below == k && level == 0,
        Some(Via::One) => level == 0,
        Some(Via::Fb) => level == 0,
        Some(Via::B(below)) => below < level && level - below == 1 && level <= k,
    }
}

/// Whether an index may stand behind the last one, where levels up to k are kept. O(1), no memory.
pub(crate) fn follows(k: u32, last: Option<Via>, via: Via) -> bool
    requires { k ≤ 8 }
    ensures { result ≡ readings.follows k last via }
{
    match via {
        Via::Data => false,
        Via::A(level) => level_follows(k, last, level),
        Via::One => one_follows(k, last),
        Via::Fb => fb_follows(k, last),
        Via::B(level) => bounded_follows(k, last, level),
    }
}

/// Whether no level is missing behind the last index. O(1), no memory.
pub(crate) fn is_end(k: u32, last: Option<Via>) -> bool
    ensures { result ≡ readings.is_end k last }
{
    match last {
        None => true,
        Some(Via::Data) => false,
        Some(Via::A(level)) => level == k,
        Some(Via::One) => true,
        Some(Via::Fb) => true,
        Some(Via::B(level)) => level == k,
    }
}
