//! What games unfold to, and why some do not.
ghost use Rattle.std.specs.Prelude.{◌≡◌, ◌+◌, ◌^◌, ◌∷◌, [], map, Some, None};
ghost use Rattle.lab_defs_text.specs.Games.{by_acts};
ghost use Rattle.lab_defs_game.specs.Histories.{histories, inner_histories};
ghost use Rattle.lab_defs_game.specs.Sets.{seen, sets, set_number};
ghost use Rattle.lab_defs_game.specs.Nodes.{nodes, node_of, span_from, span_to, path_items};
ghost use Rattle.lab_defs_game.specs.Paths.{parent};
ghost use Rattle.lab_defs_game.specs.Unfolding.{unfold_fault, told_scale, too_many_histories, horizon_passed, size_passed};
ghost use Rattle.lab_defs_game.specs.Recall.{recall_fault, legal_differs, forgotten};
ghost use Rattle.lab_defs_game.specs.Counts.{counts_of};
ghost use Rattle.lab_examples.specs.Games.{counted, at, to, first, later, late_doubling, kuhn, fork, chain, heavy_chain, loop, doubling, differs, forgets, long_chain, differs_behind, forgets_behind};

/// Kuhn poker with three cards: histories, nodes, sets of each seat, most decisions of each seat, scale.
pub fn kuhn_counts()
    ensures { counts_of kuhn ≡ counted 55 10 13 13 2 1 6 }
{}

/// Kuhn poker with three cards unfolds and has perfect recall.
pub fn kuhn_is_accepted()
    ensures unfolds { unfold_fault kuhn ≡ None }
    ensures recalls { recall_fault kuhn ≡ None }
{}

/// Kuhn poker with three cards: its nodes in order, by their public lists.
pub fn kuhn_nodes()
    ensures { nodes kuhn ≡ ([]) ∷ (0 ∷ []) ∷ (0 ∷ 4 ∷ []) ∷ (0 ∷ 4 ∷ 4 ∷ []) ∷ (0 ∷ 4 ∷ 5 ∷ []) ∷ (0 ∷ 4 ∷ 5 ∷ 6 ∷ []) ∷ (0 ∷ 4 ∷ 5 ∷ 7 ∷ []) ∷ (0 ∷ 5 ∷ []) ∷ (0 ∷ 5 ∷ 6 ∷ []) ∷ (0 ∷ 5 ∷ 7 ∷ []) ∷ [] }
{}

/// Kuhn poker with three cards: the node of each history.
pub fn kuhn_nodes_of_histories()
    ensures { map (node_of kuhn) (histories kuhn) ≡ 0 ∷ 1 ∷ 1 ∷ 1 ∷ 1 ∷ 1 ∷ 1 ∷ 2 ∷ 7 ∷ 2 ∷ 7 ∷ 2 ∷ 7 ∷ 2 ∷ 7 ∷ 2 ∷ 7 ∷ 2 ∷ 7 ∷ 3 ∷ 4 ∷ 8 ∷ 9 ∷ 3 ∷ 4 ∷ 8 ∷ 9 ∷ 3 ∷ 4 ∷ 8 ∷ 9 ∷ 3 ∷ 4 ∷ 8 ∷ 9 ∷ 3 ∷ 4 ∷ 8 ∷ 9 ∷ 3 ∷ 4 ∷ 8 ∷ 9 ∷ 5 ∷ 6 ∷ 5 ∷ 6 ∷ 5 ∷ 6 ∷ 5 ∷ 6 ∷ 5 ∷ 6 ∷ 5 ∷ 6 ∷ [] }
{}

/// Kuhn poker with three cards: the set of the first seat where each history stands that is not terminal.
pub fn kuhn_sets_of_seat_1()
    ensures { map (λ h. set_number kuhn 1 (seen kuhn 1 h)) (inner_histories kuhn) ≡ 0 ∷ 1 ∷ 1 ∷ 2 ∷ 2 ∷ 3 ∷ 3 ∷ 4 ∷ 10 ∷ 4 ∷ 10 ∷ 5 ∷ 11 ∷ 5 ∷ 11 ∷ 6 ∷ 12 ∷ 6 ∷ 12 ∷ 7 ∷ 7 ∷ 8 ∷ 8 ∷ 9 ∷ 9 ∷ [] }
{}

/// Kuhn poker with three cards: for each node the first set of the first seat in its subgame, and the first behind it.
pub fn kuhn_spans_of_seat_1()
    ensures starts { map (span_from kuhn 1) (nodes kuhn) ≡ 0 ∷ 1 ∷ 4 ∷ 7 ∷ 7 ∷ 10 ∷ 10 ∷ 10 ∷ 13 ∷ 13 ∷ [] }
    ensures stops { map (span_to kuhn 1) (nodes kuhn) ≡ 13 ∷ 13 ∷ 10 ∷ 7 ∷ 10 ∷ 10 ∷ 10 ∷ 13 ∷ 13 ∷ 13 ∷ [] }
{}

/// Kuhn poker with three cards: the set and the action that each set of the first seat follows.
pub fn kuhn_parents_of_seat_1()
    ensures { map (parent kuhn 1) (sets kuhn 1) ≡ None ∷ Some (at 0 0) ∷ Some (at 0 0) ∷ Some (at 0 0) ∷ Some (at 1 0) ∷ Some (at 2 0) ∷ Some (at 3 0) ∷ Some (at 4 0) ∷ Some (at 5 0) ∷ Some (at 6 0) ∷ Some (at 1 1) ∷ Some (at 2 1) ∷ Some (at 3 1) ∷ [] }
{}

/// Kuhn poker with three cards: the set of the second seat where each history stands that is not terminal.
pub fn kuhn_sets_of_seat_2()
    ensures { map (λ h. set_number kuhn 2 (seen kuhn 2 h)) (inner_histories kuhn) ≡ 0 ∷ 2 ∷ 3 ∷ 1 ∷ 3 ∷ 1 ∷ 2 ∷ 5 ∷ 11 ∷ 6 ∷ 12 ∷ 4 ∷ 10 ∷ 6 ∷ 12 ∷ 4 ∷ 10 ∷ 5 ∷ 11 ∷ 8 ∷ 9 ∷ 7 ∷ 9 ∷ 7 ∷ 8 ∷ [] }
{}

/// Kuhn poker with three cards: for each node the first set of the second seat in its subgame, and the first behind it.
pub fn kuhn_spans_of_seat_2()
    ensures starts { map (span_from kuhn 2) (nodes kuhn) ≡ 0 ∷ 1 ∷ 4 ∷ 7 ∷ 7 ∷ 10 ∷ 10 ∷ 10 ∷ 13 ∷ 13 ∷ [] }
    ensures stops { map (span_to kuhn 2) (nodes kuhn) ≡ 13 ∷ 13 ∷ 10 ∷ 7 ∷ 10 ∷ 10 ∷ 10 ∷ 13 ∷ 13 ∷ 13 ∷ [] }
{}

/// Kuhn poker with three cards: the set and the action that each set of the second seat follows.
pub fn kuhn_parents_of_seat_2()
    ensures { map (parent kuhn 2) (sets kuhn 2) ≡ None ∷ Some (at 0 0) ∷ Some (at 0 0) ∷ Some (at 0 0) ∷ Some (at 1 0) ∷ Some (at 2 0) ∷ Some (at 3 0) ∷ Some (at 4 1) ∷ Some (at 5 1) ∷ Some (at 6 1) ∷ Some (at 1 0) ∷ Some (at 2 0) ∷ Some (at 3 0) ∷ [] }
{}

/// Kuhn poker with three cards: the sets of the second seat on the way to a node, and how each follows.
pub fn kuhn_path()
    ensures { path_items kuhn 2 (0 ∷ 5 ∷ []) ≡ first 0 ∷ later 1 0 0 0 3 ∷ later 2 0 0 1 3 ∷ later 3 0 0 2 3 ∷ later 10 1 0 0 1 ∷ later 11 2 0 0 1 ∷ later 12 3 0 0 1 ∷ [] }
{}

/// The fork: histories, nodes, sets of each seat, most decisions of each seat, scale.
pub fn fork_counts()
    ensures { counts_of fork ≡ counted 8 4 2 3 1 1 2 }
{}

/// The fork unfolds and has perfect recall.
pub fn fork_is_accepted()
    ensures unfolds { unfold_fault fork ≡ None }
    ensures recalls { recall_fault fork ≡ None }
{}

/// The fork: its nodes in order, by their public lists.
pub fn fork_nodes()
    ensures { nodes fork ≡ ([]) ∷ (1 ∷ []) ∷ (1 ∷ 0 ∷ []) ∷ (2 ∷ []) ∷ [] }
{}

/// The fork: the node of each history.
pub fn fork_nodes_of_histories()
    ensures { map (node_of fork) (histories fork) ≡ 0 ∷ 3 ∷ 1 ∷ 1 ∷ 2 ∷ 2 ∷ 2 ∷ 2 ∷ [] }
{}

/// The fork: the set of the first seat where each history stands that is not terminal.
pub fn fork_sets_of_seat_1()
    ensures { map (λ h. set_number fork 1 (seen fork 1 h)) (inner_histories fork) ≡ 0 ∷ 1 ∷ 1 ∷ [] }
{}

/// The fork: for each node the first set of the first seat in its subgame, and the first behind it.
pub fn fork_spans_of_seat_1()
    ensures starts { map (span_from fork 1) (nodes fork) ≡ 0 ∷ 1 ∷ 2 ∷ 2 ∷ [] }
    ensures stops { map (span_to fork 1) (nodes fork) ≡ 2 ∷ 2 ∷ 2 ∷ 2 ∷ [] }
{}

/// The fork: the set and the action that each set of the first seat follows.
pub fn fork_parents_of_seat_1()
    ensures { map (parent fork 1) (sets fork 1) ≡ None ∷ Some (at 0 0) ∷ [] }
{}

/// The fork: the set of the second seat where each history stands that is not terminal.
pub fn fork_sets_of_seat_2()
    ensures { map (λ h. set_number fork 2 (seen fork 2 h)) (inner_histories fork) ≡ 0 ∷ 1 ∷ 2 ∷ [] }
{}

/// The fork: for each node the first set of the second seat in its subgame, and the first behind it.
pub fn fork_spans_of_seat_2()
    ensures starts { map (span_from fork 2) (nodes fork) ≡ 0 ∷ 1 ∷ 3 ∷ 3 ∷ [] }
    ensures stops { map (span_to fork 2) (nodes fork) ≡ 3 ∷ 3 ∷ 3 ∷ 3 ∷ [] }
{}

/// The fork: the set and the action that each set of the second seat follows.
pub fn fork_parents_of_seat_2()
    ensures { map (parent fork 2) (sets fork 2) ≡ None ∷ Some (at 0 1) ∷ Some (at 0 1) ∷ [] }
{}

/// The fork: the sets of the second seat on the way to a node, and how each follows.
pub fn fork_path()
    ensures { path_items fork 2 (1 ∷ []) ≡ first 0 ∷ later 1 0 1 0 2 ∷ later 2 0 1 1 2 ∷ [] }
{}

/// A world that leads to itself has no end within the horizon.
pub fn loop_passes_the_horizon()
    ensures { unfold_fault loop ≡ Some (horizon_passed 0) }
{}

/// Histories that double with each step pass the limit at the sixteenth.
pub fn doubling_has_too_many_histories()
    ensures { unfold_fault doubling ≡ Some (too_many_histories 16) }
{}

/// With a horizon of 15 there are 65,535, and they do not end.
pub fn short_doubling_passes_the_horizon()
    ensures { unfold_fault (record doubling { horizon = 15 }) ≡ Some (horizon_passed 0) }
{}

/// Where histories begin to double a step later there are 65,536 at the sixteenth, as many as may be, and they do not end.
pub fn as_many_histories_as_may_be()
    ensures { unfold_fault (late_doubling (to 1 1 0 0 0 ∷ [])) ≡ Some (horizon_passed 1) }
{}

/// One more is too many.
pub fn one_history_too_many()
    ensures { unfold_fault (late_doubling (to 1 1 0 0 0 ∷ to 1 2 0 0 0 ∷ [])) ≡ Some (too_many_histories 16) }
{}

/// A scale of 2^64 is the greatest with a payoff of 1.
pub fn chain_is_just_small_enough()
    ensures unfolds { unfold_fault chain ≡ None }
    ensures counts { counts_of chain ≡ counted 5 5 4 4 0 0 (2 ^ 64) }
{}

/// With a payoff of 2 it is too great.
pub fn heavy_chain_passes_the_size()
    ensures { unfold_fault heavy_chain ≡ Some (size_passed 2 (Some (2 ^ 64)) 0 0) }
{}

/// Two worlds of one set have other actions.
pub fn differs_in_legal_actions()
    ensures { recall_fault differs ≡ Some (legal_differs 1 1 2) }
{}

/// What is seen does not tell the own action.
pub fn forgets_an_action()
    ensures { recall_fault forgets ≡ Some (forgotten 1 1 2) }
{}

/// Where own actions are remembered, that is no fault.
pub fn remembers_an_action()
    ensures recalls { recall_fault (record forgets { recall = by_acts }) ≡ None }
    ensures counts { counts_of forgets ≡ counted 5 3 3 2 1 0 1 }
{}

/// A scale past 2^80 is not told.
pub fn long_chain_passes_the_size()
    ensures { unfold_fault long_chain ≡ Some (size_passed 3 None 0 0) }
{}

/// Where the first seat finds no fault, the second may.
pub fn second_seat_differs()
    ensures { recall_fault differs_behind ≡ Some (legal_differs 2 1 2) }
{}

/// So with its own actions.
pub fn second_seat_forgets()
    ensures { recall_fault forgets_behind ≡ Some (forgotten 2 1 2) }
{}

/// A scale is reported up to 2^80, and no greater one.
pub fn scales_told()
    ensures most { told_scale (2 ^ 80) ≡ Some (2 ^ 80) }
    ensures past { told_scale (2 ^ 80 + 1) ≡ None }
{}
