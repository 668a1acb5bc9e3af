// Nodes, as lines name them.
ghost use Rattle.std.specs.Prelude.{◌≡◌, ◌≢◌, ◌<◌, ◌^◌, ◌↔◌, ◌==◌, ℕ, List, IsTrue, Some, [], ◌∷◌, length, decimal};
ghost use Rattle.std.specs.Prelude.{IfSome, IfNone, IfOk, MatchOption};
ghost use Rattle.std.specs.List.{position};
ghost use Rattle.graph_spec.specs.Words.{words, node_word};
ghost use Rattle.script_read.specs.Commands.{parts, SpellsNodes};

use crate::words::{is_over, one_word, split_word};
use itoa::Buffer;
use px_base::{Memory, NodeId};
use std::alloc::Global;

/// The number that the digits spell, leading zeros and a sign allowed.
fn lenient_number(digits: &[u8]) -> Option<u32>
    ensures { (n : ℕ) → n < 2 ^ 32 → digits.now ≡ decimal n → result ≡ Some n }
{
    match str::from_utf8(digits) {
        Ok(text) => match text.parse::<u32>() {
            Ok(number) => Some(number),
            Err(_) => None,
        },
        Err(_) => None,
    }
}

/// Whether the digits are the number as it is printed.
fn is_printed(number: u32, digits: &[u8]) -> bool
    ensures { IsTrue result ↔ (digits.now ≡ decimal number) }
{
    Buffer::new().format(number).as_bytes() == digits
}

/// The number that is printed as these digits.
pub(crate) fn printed_number(digits: &[u8]) -> Option<u32>
    ensures found { IfSome result (λ n. digits.now ≡ decimal n) }
    ensures absent { IfNone result ((n : ℕ) → n < 2 ^ 32 → digits.now ≢ decimal n) }
{
    match lenient_number(digits) {
        Some(number) if is_printed(number, digits) => Some(number),
        _ => None,
    }
}

/// The number of a node that is written as `n7` is.
pub(crate) fn node_number(word: &[u8]) -> Option<NodeId>
    ensures found { IfSome result (λ n. word.now ≡ node_word n) }
    ensures absent { IfNone result ((n : ℕ) → n < 2 ^ 32 → word.now ≢ node_word n) }
{
    match word {
        [b'n', digits @ ..] => printed_number(digits),
        _ => None,
    }
}

/// The one node that follows.
pub(crate) fn one_node(rest: &[u8]) -> Option<NodeId>
    ensures found { IfSome result (λ n. words rest.now ≡ node_word n ∷ []) }
    ensures absent { IfNone result ((u : ℕ) → u < 2 ^ 32 → words rest.now ≢ node_word u ∷ []) }
{
    let (node, rest) = split_word(rest);
    let node = node_number(node)?;
    if is_over(rest) { Some(node) } else { None }
}

/// The two nodes that follow.
pub(crate) fn two_nodes(rest: &[u8]) -> Option<(NodeId, NodeId)>
    ensures found { IfSome result (λ e. words rest.now ≡ node_word e.0 ∷ node_word e.1 ∷ []) }
    ensures absent { IfNone result ((u v : ℕ) → u < 2 ^ 32 → v < 2 ^ 32 → words rest.now ≢ node_word u ∷ node_word v ∷ []) }
{
    let (from, rest) = split_word(rest);
    let (to, rest) = split_word(rest);
    let from = node_number(from)?;
    let to = node_number(to)?;
    if is_over(rest) {
        Some((from, to))
    } else {
        None
    }
}

/// The node and the word that follow.
pub(crate) fn node_and_word(rest: &[u8]) -> Option<(NodeId, &[u8])>
    ensures node { IfSome result (λ p. words rest.now ≡ node_word p.0 ∷ p.1.now ∷ []) }
    ensures number { IfSome result (λ p. p.0 < 2 ^ 32) }
    ensures absent { IfNone result ((u : ℕ) (w : List ℕ) → u < 2 ^ 32 → words rest.now ≢ node_word u ∷ w ∷ []) }
{
    let (first, behind) = split_word(rest);
    let node = node_number(first)?;
    let word = one_word(behind)?;
    Some((node, word))
}

/// Where the first comma stands.
fn comma_place(text: &[u8]) -> Option<usize>
    ensures place { result ≡ position (λ b. b == 44) text.now }
    ensures within { IfSome result (λ n. n < length text.now) }
{
    text.iter().position(|b| *b == b',')
}

/// The text up to the first comma, and what follows that, if there is one.
fn first_part(text: &[u8]) -> (&[u8], Option<&[u8]>)
    ensures parts { MatchOption result.1 (parts text.now ≡ result.0.now ∷ []) (λ rest. parts text.now ≡ result.0.now ∷ parts rest.now) }
    ensures shorter { IfSome result.1 (λ rest. length rest.now < length text.now) }
{
    match comma_place(text) {
        Some(place) => {
            let (part, rest) = text.split_at(place);
            (part, Some(&rest[1..]))
        }
        None => (text, None),
    }
}

/// The nodes that the word spells, with a comma between each two; None exactly if it spells none.
pub(crate) fn node_list(alloc: Global, word: &[u8]) -> Result<Option<Vec<NodeId>>, Memory>
    ensures { IfOk result (λ o. MatchOption o ((nodes : List ℕ) → SpellsNodes word.now nodes → ⊥) (λ v. SpellsNodes word.now v.items)) }
{
    let mut nodes = Vec::new(alloc);
    let mut text = word;
    'parts: loop {
        let (part, rest) = first_part(text);
        match node_number(part) {
            Some(node) => nodes.push(node)?,
            None => return Ok(None),
        }
        match rest {
            Some(rest) => text = rest,
            None => return Ok(Some(nodes)),
        }
    }
}
