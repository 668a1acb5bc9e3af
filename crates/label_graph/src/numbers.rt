// The numbers of reserved labels.
ghost use Rattle.std.specs.Prelude.{◌≡◌, ◌<◌, ◌≤◌, ◌^◌, IsTrue, length, map, nat_eq, position};
ghost use Rattle.graph_spec.specs.Members.{has};
ghost use Rattle.label_graph.specs.LabelTable.{entries, with_shown, exchanged, renumbered, without_number};

use crate::labels::Labels;

/// Makes a label of the entry, and gives the number that it has then. The numbers in both lists stand for the texts that
/// they stood for before.
pub(crate) fn show(
    labels: &mut Labels,
    numbers: &mut Vec<u32>,
    relabels: &mut Vec<u32>,
    l: u32,
) -> u32
    requires few { length labels.old.texts ≤ l → length labels.old.texts < 2 ^ 30 }
    requires entry { l < length (entries labels.old) }
    ensures shown { labels.new ≡ with_shown labels.old l }
    ensures number { result ≡ renumbered labels.old l l }
    ensures numbers { numbers.new.items ≡ map (renumbered labels.old l) numbers.old.items }
    ensures relabels { relabels.new.items ≡ map (renumbered labels.old l) relabels.old.items }
{
    let number = labels.show(l);
    if number == l {
        return number;
    }
    exchange(numbers, number, l);
    exchange(relabels, number, l);
    number
}

/// Takes out the first number that is l.
pub(crate) fn take_number(numbers: &mut Vec<u32>, l: u32)
    requires { IsTrue (has numbers.old.items l) }
    ensures { numbers.new.items ≡ without_number numbers.old.items l }
{
    let at = place_of_number(numbers, l).unwrap();
    numbers.remove(at);
}

fn place_of_number(numbers: &[u32], l: u32) -> Option<usize>
    ensures { result ≡ position (nat_eq l) numbers.now }
{
    numbers.iter().position(|m| l == *m)
}

// Exchanges two numbers, wherever they stand.
fn exchange(numbers: &mut Vec<u32>, a: u32, b: u32)
    ensures { numbers.new.items ≡ map (exchanged a b) numbers.old.items }
{
    for i in 0..numbers.len() {
        numbers[i] = other_of(a, b, numbers[i]);
    }
}

// The number m, where a and b have changed places.
fn other_of(a: u32, b: u32, m: u32) -> u32
    ensures { result ≡ exchanged a b m }
{
    if m == a {
        b
    } else if m == b {
        a
    } else {
        m
    }
}
