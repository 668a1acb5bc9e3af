// What a caller in another language holds.
ghost use Rattle.std.specs.Prelude.{◌≡◌, ◌≤◌, None};
ghost use Rattle.pathindex_calls.specs.Requests.{LevelsAreFew};
ghost use Rattle.pathindex_calls.specs.Calls.{IsCalled, IsChecked, IsReported, IsEmpty, CopiesFound, Opens, AsksSession, Calls, ChecksSession, nodes_in, edges_in, next_in, found_nodes, found_walk, found_text};

use crate::calls::obey;
use crate::copying::copy_part;
use crate::questions::check;
use crate::replies::{MISUSE, Reply, of_open, said};
use crate::requests::{Call, Request, request_at};
use graph_update::Change;
use pathindex_session::{Indexes, Session};
use px_base::NodeId;
use std::alloc::Global;

/// A session, once one is opened; the steps of a group that is begun; and what the last call came to.
#[derive(Drop)]
pub struct Held {
    alloc: Global,
    session: Option<Session>,
    group: Option<Change>,
    reply: Reply,
}

// Opens a session where there is none.
fn open_session(alloc: Global, session: &mut Option<Session>, kept: Indexes, text: &[u8]) -> Reply
    requires level { kept.k ≤ 8 }
    requires closed { session.old ≡ None }
    ensures { Opens kept text.now session.new result }
{
    match Session::open(alloc, text, kept) {
        Ok(opened) => {
            *session = Some(opened);
            said(0)
        }
        Err(error) => of_open(error),
    }
}

// Carries out a call on the session, if one is open.
fn ask_session(
    alloc: Global,
    session: &mut Option<Session>,
    group: &mut Option<Change>,
    call: Call,
    text: &[u8],
) -> Reply
    ensures { AsksSession session.old call text.now group.old (record { session = session.new; group = group.new }) result }
{
    match session {
        Some(session) => obey(alloc, session, group, call, text),
        None => said(MISUSE),
    }
}

// Carries out a request.
fn carry_out(
    alloc: Global,
    session: &mut Option<Session>,
    group: &mut Option<Change>,
    request: Option<Request>,
    text: &[u8],
) -> Reply
    requires { LevelsAreFew request }
    ensures { Calls request text.now (record { session = session.old; group = group.old }) (record { session = session.new; group = group.new }) result }
{
    match request {
        Some(Request::Open(kept)) => {
            *group = None;
            *session = None;
            open_session(alloc, session, kept, text)
        }
        Some(Request::Ask(call)) => ask_session(alloc, session, group, call, text),
        None => said(MISUSE),
    }
}

// Checks a walk in the graph of the session, if one is open.
fn check_walk(
    alloc: Global,
    session: &Option<Session>,
    n: NodeId,
    walk: &[NodeId],
    text: &[u8],
) -> Reply
    ensures { ChecksSession session.now text.now n walk.now result }
{
    match session {
        Some(session) => check(alloc, session, n, walk, text),
        None => said(MISUSE),
    }
}

// What is reported of the graph.
fn node_count(session: &Option<Session>) -> u64
    ensures { result ≡ nodes_in session.now }
{
    match session {
        Some(session) => u64::from(session.graph().node_count()),
        None => 0,
    }
}

fn edge_count(session: &Option<Session>) -> u64
    ensures { result ≡ edges_in session.now }
{
    match session {
        Some(session) => u64::from(session.graph().edge_count()),
        None => 0,
    }
}

fn next_node(session: &Option<Session>) -> u64
    ensures { result ≡ next_in session.now }
{
    match session {
        Some(session) => u64::from(session.graph().created()),
        None => 0,
    }
}

impl Held {
    /// No session yet. O(1), no memory.
    pub fn new(alloc: &Global) -> Held
        ensures { IsEmpty result }
    {
        Held {
            alloc: *alloc,
            session: None,
            group: None,
            reply: said(0),
        }
    }

    /// Carries out the call of that number, with two numbers and a text, and says its code: that of the reply. A session that was
    /// open before `open` is dropped. The cost is that of the session's call.
    ///
    /// Call 0 opens a session: `a` is the highest level, and the bits of `b` are 1 to leave out the 1-index, 2 to leave out the
    /// forward and backward index, 4 to keep the bounded ones too. Calls 1 to 5 add a node, link, unlink, drop and relabel; 6 to
    /// 8 begin, end and cancel a group of these; 9 and 10 insert and delete a triple; 11 and 12 ask a path and a branching query
    /// through `a`; 13 asks why node `a` answers; 14 lists the blocks of index `a`, and 15 the sizes; 16 drops the indexes of
    /// kind `a`; 17 makes the index file of the graph and of the indexes.
    pub fn call(&mut self, call: u32, a: u32, b: u32, text: &[u8]) -> u32
        ensures { IsCalled call a b text.now self.old self.new result }
    {
        let request = request_at(call, a, b);
        self.reply = carry_out(
            self.alloc,
            &mut self.session,
            &mut self.group,
            request,
            text,
        );
        self.reply.code
    }

    /// Carries out a check, and says its code: the reply's count is 1 where the numbers are the nodes of a walk that shows that
    /// the node answers the path expression that the text spells, and 0 if they aren't. The cost is that of `Session::check`.
    pub fn check(&mut self, n: NodeId, walk: &[NodeId], text: &[u8]) -> u32
        ensures { IsChecked n walk.now text.now self.old self.new result }
    {
        self.reply = check_walk(self.alloc, &self.session, n, walk, text);
        self.reply.code
    }

    /// A number of the last reply, or of the graph: 0 for how answers were found, 1 for the count, 2 for the number, 3 for the
    /// nodes of the graph, 4 for its edges, 5 for the number that its next node gets. O(1), no memory.
    pub fn reported(&mut self, which: u32) -> u64
        ensures { IsReported which self.old self.new result }
    {
        match which {
            0 => u64::from(self.reply.how),
            1 => self.reply.count,
            2 => self.reply.number,
            3 => node_count(&self.session),
            4 => edge_count(&self.session),
            5 => next_node(&self.session),
            _ => 0,
        }
    }

    /// Copies the answers that were found last, from the place `first` on, as many as fit, and says how many.
    pub fn copy_nodes(&mut self, first: usize, out: &mut [NodeId]) -> usize
        ensures { CopiesFound found_nodes first self.old self.new out.old out.new result }
    {
        match &self.session {
            Some(session) => copy_part(session.nodes(), first, out),
            None => copy_part(&[], first, out),
        }
    }

    /// Copies the walk that was found last, as `copy_nodes` does.
    pub fn copy_walk(&mut self, first: usize, out: &mut [NodeId]) -> usize
        ensures { CopiesFound found_walk first self.old self.new out.old out.new result }
    {
        match &self.session {
            Some(session) => copy_part(session.walk(), first, out),
            None => copy_part(&[], first, out),
        }
    }

    /// Copies the text that was made last, as `copy_nodes` does.
    pub fn copy_text(&mut self, first: usize, out: &mut [u8]) -> usize
        ensures { CopiesFound found_text first self.old self.new out.old out.new result }
    {
        match &self.session {
            Some(session) => copy_part(session.text(), first, out),
            None => copy_part(&[], first, out),
        }
    }

    /// Drops the session, if one is open. It is as `new` gave it then, and has no memory.
    pub fn close(&mut self)
        ensures { IsEmpty self.new }
    {
        self.session = None;
        self.group = None;
        self.reply = said(0);
    }
}
