//! The calls of C over `Held`, which `pathindex.c` declares and `pathindex.h` offers in a form for people.
//!
//! What a handle holds lies in memory of the caller's, at the address that each call is given. Each contract says what lies there
//! before and after the call, and carries the clause of `Held` over the boundary: which graph, which answers, which bytes. What
//! a caller owes is in the `requires*`; nothing checks that C keeps to it, and the header says it in words.
#![tactic(auto)]

ghost use Rattle.std.specs.Borrow.{full_share, sem};
ghost use Rattle.std.specs.Ptr.{lies_at, room_at};
ghost use base.Fml.{fex};
ghost use Rattle.pathindex_calls.specs.contracts.held.Held.{the_row as held};
ghost use Rattle.pathindex_calls.specs.Calls.{IsCalled, IsChecked, IsReported, IsEmpty, CopiesFound, found_nodes, found_walk, found_text};

use pathindex_calls::Held;
use std::alloc::Global;
use std::mem::size_of;

/// How many bytes a handle takes, aligned as `malloc` aligns.
#[unsafe(no_mangle)]
pub extern "C" fn pathindex_c_size() -> usize {
    size_of::<Held>()
}

/// Puts what `Held::new` makes into the memory, where nothing lies yet.
#[unsafe(no_mangle)]
pub unsafe extern "C" fn pathindex_c_new(alloc: &Global, at: *mut u8)
    requires* { sem 𝓛 (room_at held at) }
    ensures* { sem 𝓛 (fex Held (λ after. fex (IsEmpty after) (λ _. lies_at held full_share at after))) }
{
    let held = Held::new(alloc);
    unsafe { std::ptr::write(at as *mut Held, held) };
}

/// `Held::call`: carries out the call of that number, and says its code.
#[unsafe(no_mangle)]
pub unsafe extern "C" fn pathindex_c_call(
    at: *mut u8,
    call: u32,
    a: u32,
    b: u32,
    text: &[u8],
) -> u32
    ghost value: { Held }
    requires* { sem 𝓛 (lies_at held full_share at value) }
    ensures* { sem 𝓛 (fex Held (λ after. fex (IsCalled call a b text.now value after result) (λ _. lies_at held full_share at after))) }
{
    let held = unsafe { &mut *(at as *mut Held) };
    held.call(call, a, b, text)
}

/// `Held::check`: checks a walk, and says its code.
#[unsafe(no_mangle)]
pub unsafe extern "C" fn pathindex_c_check(at: *mut u8, node: u32, walk: &[u32], text: &[u8]) -> u32
    ghost value: { Held }
    requires* { sem 𝓛 (lies_at held full_share at value) }
    ensures* { sem 𝓛 (fex Held (λ after. fex (IsChecked node walk.now text.now value after result) (λ _. lies_at held full_share at after))) }
{
    let held = unsafe { &mut *(at as *mut Held) };
    held.check(node, walk, text)
}

/// `Held::reported`: a number of the last reply, or of the graph.
#[unsafe(no_mangle)]
pub unsafe extern "C" fn pathindex_c_told(at: *mut u8, which: u32) -> u64
    ghost value: { Held }
    requires* { sem 𝓛 (lies_at held full_share at value) }
    ensures* { sem 𝓛 (fex Held (λ after. fex (IsReported which value after result) (λ _. lies_at held full_share at after))) }
{
    let held = unsafe { &mut *(at as *mut Held) };
    held.reported(which)
}

/// `Held::copy_nodes`: copies the answers that were found last.
#[unsafe(no_mangle)]
pub unsafe extern "C" fn pathindex_c_nodes(at: *mut u8, first: usize, nodes: &mut [u32]) -> usize
    ghost value: { Held }
    requires* { sem 𝓛 (lies_at held full_share at value) }
    ensures* { sem 𝓛 (fex Held (λ after. fex (CopiesFound found_nodes first value after nodes.old nodes.new result)
        (λ _. lies_at held full_share at after))) }
{
    let held = unsafe { &mut *(at as *mut Held) };
    held.copy_nodes(first, nodes)
}

/// `Held::copy_walk`: copies the walk that was found last.
#[unsafe(no_mangle)]
pub unsafe extern "C" fn pathindex_c_walk(at: *mut u8, first: usize, nodes: &mut [u32]) -> usize
    ghost value: { Held }
    requires* { sem 𝓛 (lies_at held full_share at value) }
    ensures* { sem 𝓛 (fex Held (λ after. fex (CopiesFound found_walk first value after nodes.old nodes.new result)
        (λ _. lies_at held full_share at after))) }
{
    let held = unsafe { &mut *(at as *mut Held) };
    held.copy_walk(first, nodes)
}

/// `Held::copy_text`: copies the text that was made last.
#[unsafe(no_mangle)]
pub unsafe extern "C" fn pathindex_c_text(at: *mut u8, first: usize, bytes: &mut [u8]) -> usize
    ghost value: { Held }
    requires* { sem 𝓛 (lies_at held full_share at value) }
    ensures* { sem 𝓛 (fex Held (λ after. fex (CopiesFound found_text first value after bytes.old bytes.new result)
        (λ _. lies_at held full_share at after))) }
{
    let held = unsafe { &mut *(at as *mut Held) };
    held.copy_text(first, bytes)
}

/// `Held::close`: drops the session, if one is open. The memory then holds nothing that takes more memory, and may be freed.
#[unsafe(no_mangle)]
pub unsafe extern "C" fn pathindex_c_close(at: *mut u8)
    ghost value: { Held }
    requires* { sem 𝓛 (lies_at held full_share at value) }
    ensures* { sem 𝓛 (fex Held (λ after. fex (IsEmpty after) (λ _. lies_at held full_share at after))) }
{
    let held = unsafe { &mut *(at as *mut Held) };
    held.close();
}
