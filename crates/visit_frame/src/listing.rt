// The successors of a position, when nothing is known of them yet.
ghost use Rattle.std.specs.Prelude.{◌≡◌, ◌↔◌, IfOk, All, Contains, map, IsTrue};
ghost use Rattle.board_core.specs.declared.moves.Move.{Move};
ghost use Rattle.board_core.specs.Key.{key_of};
ghost use Rattle.shogi_rules.specs.Rules.{IsQuiet, IsLegal};
ghost use Rattle.pn_numbers.specs.declared.node.Node.TheVariants.{Defender};
ghost use Rattle.visit_log.specs.Frame.{node_of};
ghost use Rattle.visit_log.specs.Children.{IsNewChild, move_to, first_look, AreChildren};

use board_core::{Key, Move, Position};
use check_moves::checks;
use evasions::answers;
use path_tags::Path;
use pn_numbers::{Node, Numbers};
use shogi_rules::{Problem, key_after};
use std::alloc::{AllocError, Global};
use visit_log::{Child, Look};

// Whose move it is at a position.
pub(crate) fn node_at(problem: &Problem, position: &Position) -> Node
    ensures { result ≡ node_of problem.now.position.side position.now.side }
{
    if position.side() == problem.attacker() {
        Node::Attacker
    } else {
        Node::Defender
    }
}

fn first_look(on_path: bool) -> Look
    ensures { result ≡ first_look on_path }
{
    if on_path { Look::Stale } else { Look::Due }
}

// Whether a successor of a node is an attacker's position that stands on the path.
fn is_on_path(node: Node, path: &Path, key: &Key) -> bool
    ensures { IsTrue result ↔ ((node ≡ Defender) × Contains path.now key.now) }
{
    match node {
        Node::Attacker => false,
        Node::Defender => path.holds(key),
    }
}

// The child behind a legal move.
fn new_child(problem: &Problem, position: &Position, key: &Key, path: &Path, by: Move) -> Child
    requires legal { IsLegal position.now by }
    requires key { key.now.0 ≡ key_of position.now }
    ensures new { IsNewChild problem.now.position.side position.now path.now result }
    ensures by { result.by ≡ by }
{
    let key = key_after(position, key, by);
    let on_path = is_on_path(node_at(problem, position), path, &key);
    Child {
        by,
        key,
        on_path,
        look: first_look(on_path),
        numbers: Numbers::ONE,
        below: 0,
        note: None,
    }
}

// The children behind legal moves.
fn new_children(
    alloc: Global,
    problem: &Problem,
    position: &Position,
    key: &Key,
    path: &Path,
    moves: &[Move],
) -> Result<Vec<Child>, AllocError>
    requires legal { (move : Move) → Contains moves.now move → IsLegal position.now move }
    requires key { key.now.0 ≡ key_of position.now }
    ensures moves { IfOk result (λ children. map move_to children.items ≡ moves.now) }
    ensures new { IfOk result
        (λ children. All (IsNewChild problem.now.position.side position.now path.now)
        children.items) }
{
    let mut children = Vec::with_capacity(alloc, moves.len())?;
    for by in moves {
        children.push(new_child(problem, position, key, path, *by))?;
    }
    Ok(children)
}

// The children of a position.
pub(crate) fn children_of(
    alloc: Global,
    problem: &Problem,
    position: &Position,
    key: &Key,
    path: &Path,
) -> Result<Vec<Child>, AllocError>
    requires quiet { IsQuiet position.now }
    requires key { key.now.0 ≡ key_of position.now }
    ensures { IfOk result
        (λ children. AreChildren problem.now.position.side position.now path.now children.items) }
{
    let moves = match node_at(problem, position) {
        Node::Attacker => checks(alloc, problem, position)?,
        Node::Defender => answers(alloc, problem, position)?,
    };
    new_children(alloc, problem, position, key, path, moves.as_slice())
}
