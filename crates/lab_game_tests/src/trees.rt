//! The public tree of Kuhn poker with three cards.
ghost use Rattle.std.specs.Prelude.{◌≡◌, ◌⊎◌, ◌<◌, false, [], length, slice_index_or, IfOk};
ghost use Rattle.lab_defs_game.specs.Histories as model;
ghost use Rattle.lab_world.specs.Games.{game_model};
ghost use Rattle.lab_unfold.specs.Values.{unfolded};
ghost use Rattle.lab_tree.specs.Trees.{tree_of};

use crate::histories::{histories_of, history_at, kuhn};
use lab_form::{Form, FormRow, FormSet, SetId, Span};
use lab_recall::check_sets;
use lab_tree::{Follow, NodeId, PathItem, RowId, RowInfo, SetInfo, Tree};
use lab_unfold::{Histories, HistoryId};
use lab_units::Worth;
use lab_world::Game;
use std::alloc::Global;
use std::iter::DoubleEndedIterator;
use std::test::Fail;

// The tree of a game.
fn tree_in(alloc: Global, game: &Game) -> Result<Tree, Fail>
    ensures { IfOk result (λ t. t ≡ tree_of (game_model game.now)) }
{
    let histories = histories_of(alloc, game)?;
    check_sets(alloc, game, &histories)?;
    Ok(Tree::build(alloc, game, histories)?)
}

// The tree of Kuhn poker.
fn kuhn_tree(alloc: Global) -> Result<Tree, Fail> {
    tree_in(alloc, &kuhn(alloc)?)
}

// What a function reads off that tree.
fn on_tree<T, F: FnOnce(&Tree) -> Result<T, Fail>>(alloc: Global, read: F) -> Result<T, Fail>
    requires { F.IsAlwaysCallable read }
{
    let tree = kuhn_tree(alloc)?;
    read(&tree)
}

// The history with a number, which is not terminal.
fn inner_at(game: &Game, histories: &Histories, number: u32) -> Result<HistoryId, Fail>
    requires { histories.now ≡ unfolded (game_model game.now) }
    ensures there { IfOk result (λ h. h.0 < length (model.histories (game_model game.now))) }
    ensures inner { IfOk result (λ h. model.is_terminal (game_model game.now)
        (slice_index_or (model.histories (game_model game.now)) h.0 []) ≡ false) }
{
    let history = history_at(histories, number)?;
    let Some(_) = game.world(histories.item(history).world) else {
        return Err(Fail::new("a terminal history"));
    };
    Ok(history)
}

// The set of seat 1 at the history with a number.
fn set_of(game: &Game, tree: &Tree, number: u32) -> Result<SetId, Fail>
    requires { tree.now ≡ tree_of (game_model game.now) }
{
    let history = inner_at(game, tree.histories(), number)?;
    Ok(tree.set_of(1, history))
}

// That set, by the tree of a game.
fn set_in(alloc: Global, game: &Game, number: u32) -> Result<SetId, Fail> {
    let tree = tree_in(alloc, game)?;
    set_of(game, &tree, number)
}

// That set, by the tree of Kuhn poker.
fn set_at(alloc: Global, number: u32) -> Result<SetId, Fail> {
    set_in(alloc, &kuhn(alloc)?, number)
}

// The node with a number.
fn node_at(tree: &Tree, number: u32) -> Result<NodeId, Fail>
    ensures { IfOk result (λ n. n.0 < length tree.now.nodes) }
{
    match tree.find_node(number) {
        Some(node) => Ok(node),
        None => Err(Fail::new("no node")),
    }
}

// The node of the history with a number.
fn node_of(tree: &Tree, number: u32) -> Result<NodeId, Fail> {
    Ok(tree.node_of(history_at(tree.histories(), number)?))
}

// How deep the node with a number is.
fn depth_of(tree: &Tree, number: u32) -> Result<u32, Fail> {
    Ok(tree.depth(node_at(tree, number)?))
}

// How many sets seat 1 has at the node with a number, and the last of them.
fn sets_at(tree: &Tree, number: u32) -> Result<(usize, Option<SetInfo>), Fail> {
    let sets = tree.node_sets(1, node_at(tree, number)?);
    Ok((sets.len(), sets.last().copied()))
}

// The sets of a seat at the node with a number.
fn span_at(tree: &Tree, seat: u32, number: u32) -> Result<Span, Fail>
    requires { (seat ≡ 1) ⊎ (seat ≡ 2) }
{
    Ok(tree.span(seat, node_at(tree, number)?))
}

// How many rows the node with a number has, and the first of them.
fn rows_at(tree: &Tree, number: u32) -> Result<(usize, Option<RowInfo>), Fail> {
    let rows = tree.node_rows(node_at(tree, number)?);
    Ok((rows.len(), rows.first().copied()))
}

// The first and the last item of the path of seat 2 to the node with a number, and how many are between them.
fn path_to(
    alloc: Global,
    tree: &Tree,
    number: u32,
) -> Result<([Option<PathItem>; 2], usize), Fail> {
    let mut path = tree.path(2, node_at(tree, number)?);
    let ends = [path.next(), path.next_back()];
    let between: Vec<PathItem> = path.collect(alloc)?;
    Ok((ends, between.len()))
}

// How many sets seat 1 has in a form, and the last of them.
fn last_set(form: &Form) -> (usize, Option<FormSet>) {
    let sets = form.sets(1);
    (sets.len(), sets.last().copied())
}

// How many rows a form has, and the first of them.
fn first_row(form: &Form) -> (usize, Option<FormRow>) {
    let rows = form.rows();
    (rows.len(), rows.first().copied())
}

// The last set of seat 1 and the first row of the form, each after how many there are.
fn form_parts(tree: &Tree) -> Result<((usize, Option<FormSet>), (usize, Option<FormRow>)), Fail> {
    let form = tree.form()?;
    Ok((last_set(&form), first_row(&form)))
}

#[test]
fn numbers_nodes(rt: HostRuntime) -> Result<(), Fail> {
    assert_eq!(rt; on_tree(rt.alloc(), |tree| Ok(tree.node_count()))?, 10);
    assert_eq!(rt;
        on_tree(rt.alloc(), |tree| Ok(tree.find_node(9)))?,
        Some(NodeId(9))
    );
    assert_eq!(rt; on_tree(rt.alloc(), |tree| Ok(tree.find_node(10)))?, None);
    Ok(())
}

#[test]
fn finds_the_node_of_a_history(rt: HostRuntime) -> Result<(), Fail> {
    // Seat 1 has checked and seat 2 has bet.
    assert_eq!(rt; on_tree(rt.alloc(), |tree| node_of(tree, 20))?, NodeId(4));
    assert_eq!(rt; on_tree(rt.alloc(), |tree| depth_of(tree, 4))?, 3);
    Ok(())
}

#[test]
fn finds_the_sets_of_histories(rt: HostRuntime) -> Result<(), Fail> {
    // Seat 1 has checked and seat 2 has bet; seat 1 has the card 1 in 20, and the card 3 in 40.
    assert_eq!(rt; set_at(rt.alloc(), 20)?, SetId(7));
    assert_eq!(rt; set_at(rt.alloc(), 40)?, SetId(9));
    Ok(())
}

#[test]
fn lists_the_sets_at_a_node(rt: HostRuntime) -> Result<(), Fail> {
    let last = SetInfo {
        id: SetId(9),
        node: NodeId(4),
        parent: Some((SetId(6), 0)),
        actions: 2,
        first_weight: 10,
    };
    assert_eq!(rt;
        on_tree(rt.alloc(), |tree| sets_at(tree, 4))?,
        (3, Some(last))
    );
    Ok(())
}

#[test]
fn finds_the_spans_of_a_node(rt: HostRuntime) -> Result<(), Fail> {
    let sets = Span { from: 7, to: 10 };
    assert_eq!(rt; on_tree(rt.alloc(), |tree| span_at(tree, 1, 4))?, sets);
    assert_eq!(rt; on_tree(rt.alloc(), |tree| span_at(tree, 2, 4))?, sets);
    Ok(())
}

#[test]
fn lists_the_rows_of_a_node(rt: HostRuntime) -> Result<(), Fail> {
    // Seat 1 has checked, seat 2 has bet, and seat 1 has called.
    let first = RowInfo {
        id: RowId(12),
        history: HistoryId(44),
        worth: Worth(-2),
        last: [(SetId(7), 1), (SetId(8), 0)],
    };
    assert_eq!(rt;
        on_tree(rt.alloc(), |tree| rows_at(tree, 6))?,
        (6, Some(first))
    );
    Ok(())
}

#[test]
fn walks_a_path_from_either_end(rt: HostRuntime) -> Result<(), Fail> {
    let first = PathItem {
        set: SetId(0),
        follows: None,
    };
    let last = PathItem {
        set: SetId(9),
        follows: Some(Follow {
            from: 6,
            action: 1,
            place: 0,
            count: 1,
        }),
    };
    let alloc = rt.alloc();
    assert_eq!(rt;
        on_tree(alloc, |tree| path_to(alloc, tree, 4))?,
        ([Some(first), Some(last)], 8)
    );
    Ok(())
}

#[test]
fn makes_the_form_of_the_game(rt: HostRuntime) -> Result<(), Fail> {
    let set = FormSet {
        parent: Some((SetId(3), 1)),
        actions: 1,
        first_weight: 12,
    };
    let row = FormRow {
        worth: Worth(-1),
        last: [Some((SetId(4), 0)), Some((SetId(5), 0))],
        pads: [1, 0],
    };
    assert_eq!(rt;
        on_tree(rt.alloc(), form_parts)?,
        ((13, Some(set)), (30, Some(row)))
    );
    Ok(())
}
