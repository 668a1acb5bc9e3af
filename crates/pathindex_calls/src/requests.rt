// Calls as numbers.
ghost use Rattle.std.specs.Prelude.{◌≡◌, ◌≤◌, IfSome};
ghost use Rattle.pathindex_calls.specs.Requests.{via_at, kind_at, indexes_at, open_at, path_at, branch_at, extents_at, forget_at, change_at, request_at, LevelsAreFew};

use index_api::{Kind, Via};
use pathindex_session::Indexes;
use px_base::NodeId;

/// What is asked of a session that is open. A text comes with some of them.
#[derive(Clone, Copy, Debug, PartialEq, Eq, Drop)]
pub(crate) enum Call {
    /// One more node, whose label the text spells.
    Node,
    /// An edge from the first node to the second.
    Link(NodeId, NodeId),
    /// That edge is taken away.
    Unlink(NodeId, NodeId),
    /// The node is taken away, with its edges.
    Drop(NodeId),
    /// The node gets the label that the text spells.
    Relabel(NodeId),
    /// The steps up to the end of the group are made as one change.
    Begin,
    /// That change is made.
    End,
    /// It isn't made.
    Cancel,
    /// The triple that the text spells comes into the graph.
    Insert,
    /// It goes out of the graph.
    Delete,
    /// The answers of the path expression that the text spells.
    Path(Via),
    /// The answers of the branching query that the text spells.
    Branch(Via),
    /// Why the node answers the path expression that the text spells.
    Why(NodeId),
    /// The blocks of an index.
    Extents(Via),
    /// The sizes of the graph and of the indexes.
    Sizes,
    /// The index file of the graph and of the indexes.
    Save,
    /// The indexes of this kind are kept no longer.
    Forget(Kind),
}

/// What a call asks for.
#[derive(Clone, Copy, Debug, PartialEq, Eq, Drop)]
pub(crate) enum Request {
    /// A session of the graph whose triples the text has.
    Open(Indexes),
    /// Something of the session that is open.
    Ask(Call),
}

// Through what a number asks: below 16 the A(k)-index of that level, and then, from 16 on, the bounded forward and backward one.
fn via_at(n: u32) -> Option<Via>
    ensures { result ≡ via_at n }
{
    match n {
        0..=15 => Some(Via::A(n)),
        16..=31 => Some(Via::B(n - 16)),
        32 => Some(Via::Data),
        33 => Some(Via::One),
        34 => Some(Via::Fb),
        _ => None,
    }
}

// The kind of index that a number names: that of the index of level 0.
fn kind_at(n: u32) -> Option<Kind>
    ensures { result ≡ kind_at n }
{
    match n {
        0 => Some(Kind::A),
        16 => Some(Kind::B),
        33 => Some(Kind::One),
        34 => Some(Kind::Fb),
        _ => None,
    }
}

// The indexes that are kept, with levels up to `k`: bit 0 leaves out the 1-index, bit 1 the forward and backward index, and bit
// 2 adds the bounded ones.
fn indexes_at(k: u32, flags: u32) -> Option<Indexes>
    ensures kept { result ≡ indexes_at k flags }
    ensures level { IfSome result (λ kept. kept.k ≤ 8) }
{
    if k <= 8 && flags <= 7 {
        Some(Indexes {
            k,
            one: flags % 2 == 0,
            fb: flags / 2 % 2 == 0,
            bk: flags / 4 == 1,
        })
    } else {
        None
    }
}

// The session that is opened.
fn open_at(k: u32, flags: u32) -> Option<Request>
    ensures request { result ≡ open_at k flags }
    ensures level { LevelsAreFew result }
{
    match indexes_at(k, flags) {
        Some(kept) => Some(Request::Open(kept)),
        None => None,
    }
}

fn path_at(n: u32) -> Option<Request>
    ensures request { result ≡ path_at n }
    ensures level { LevelsAreFew result }
{
    match via_at(n) {
        Some(via) => Some(Request::Ask(Call::Path(via))),
        None => None,
    }
}

fn branch_at(n: u32) -> Option<Request>
    ensures request { result ≡ branch_at n }
    ensures level { LevelsAreFew result }
{
    match via_at(n) {
        Some(via) => Some(Request::Ask(Call::Branch(via))),
        None => None,
    }
}

fn extents_at(n: u32) -> Option<Request>
    ensures request { result ≡ extents_at n }
    ensures level { LevelsAreFew result }
{
    match via_at(n) {
        Some(via) => Some(Request::Ask(Call::Extents(via))),
        None => None,
    }
}

fn forget_at(n: u32) -> Option<Request>
    ensures request { result ≡ forget_at n }
    ensures level { LevelsAreFew result }
{
    match kind_at(n) {
        Some(kind) => Some(Request::Ask(Call::Forget(kind))),
        None => None,
    }
}

// The change that a call asks for, or its part in one.
fn change_at(call: u32, a: u32, b: u32) -> Option<Request>
    ensures request { result ≡ change_at call a b }
    ensures level { LevelsAreFew result }
{
    match call {
        1 => Some(Request::Ask(Call::Node)),
        2 => Some(Request::Ask(Call::Link(a, b))),
        3 => Some(Request::Ask(Call::Unlink(a, b))),
        4 => Some(Request::Ask(Call::Drop(a))),
        5 => Some(Request::Ask(Call::Relabel(a))),
        6 => Some(Request::Ask(Call::Begin)),
        7 => Some(Request::Ask(Call::End)),
        8 => Some(Request::Ask(Call::Cancel)),
        9 => Some(Request::Ask(Call::Insert)),
        10 => Some(Request::Ask(Call::Delete)),
        _ => None,
    }
}

/// What a call asks for: its number, and two numbers that come with it.
pub(crate) fn request_at(call: u32, a: u32, b: u32) -> Option<Request>
    ensures request { result ≡ request_at call a b }
    ensures level { LevelsAreFew result }
{
    match call {
        0 => open_at(a, b),
        11 => path_at(a),
        12 => branch_at(a),
        13 => Some(Request::Ask(Call::Why(a))),
        14 => extents_at(a),
        15 => Some(Request::Ask(Call::Sizes)),
        16 => forget_at(a),
        17 => Some(Request::Ask(Call::Save)),
        _ => change_at(call, a, b),
    }
}
