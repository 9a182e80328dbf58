// The reckoning with proof numbers, by rows.
use crate::same::same;
use pn_numbers::{
    Child, INFINITE, Node, Numbers, and_numbers, child_thresholds, or_numbers, select,
};

fn numbers(pn: u32, dn: u32) -> Numbers {
    Numbers { pn, dn }
}

fn child(pn: u32, dn: u32, below: u64) -> Child {
    Child {
        numbers: numbers(pn, dn),
        below,
    }
}

#[test]
fn numbers_are_combined_from_those_of_the_children(rt: HostRuntime) {
    let two = [numbers(2, 3), numbers(1, 4)];
    let most = [numbers(1, 100_000_000), numbers(1, 100_000_000)];
    let rows = [
        (or_numbers(&two), numbers(1, 7)),
        (and_numbers(&two), numbers(3, 3)),
        (or_numbers(&most), numbers(1, 100_000_000)),
        (Numbers::PROVED, numbers(0, 100_000_001)),
        (
            or_numbers(&[numbers(2, 3), Numbers::PROVED]),
            Numbers::PROVED,
        ),
        (and_numbers(&[]), Numbers::PROVED),
    ];
    for (row, (found, wanted)) in rows.into_iter().enumerate() {
        same(&rt, row, found, wanted);
    }
}

#[test]
fn a_child_is_selected_with_its_second_best(rt: HostRuntime) {
    // The worker below the second child, and what comes after it.
    let visited = [child(2, 3, 0), child(1, 4, 2)];
    let alike = [child(2, 3, 0), child(2, 5, 0)];
    let proved = [child(INFINITE, 0, 0)];
    let rows = [
        (Node::Attacker, visited.as_slice(), 1, Some((0, 7))),
        (Node::Defender, visited.as_slice(), 1, Some((0, 10))),
        (Node::Attacker, alike.as_slice(), 0, Some((0, 2))),
        (Node::Attacker, alike.as_slice(), 1, Some((0, 2))),
        (Node::Attacker, alike.as_slice(), 2, Some((1, 2))),
        (Node::Attacker, alike.as_slice(), 3, Some((0, 2))),
        (Node::Attacker, proved.as_slice(), 1, None),
    ];
    for (row, (node, children, worker, wanted)) in rows.into_iter().enumerate() {
        same(&rt, row, select(node, children, worker), wanted);
    }
}

#[test]
fn the_thresholds_of_the_child_follow_from_the_second_best(rt: HostRuntime) {
    for (second, wanted) in [(7, numbers(8, 6)), (16, numbers(19, 6))] {
        let limits = numbers(INFINITE, 10);
        let found = child_thresholds(Node::Attacker, limits, numbers(1, 7), numbers(2, 3), second);
        same(&rt, second, found, wanted);
    }
}
