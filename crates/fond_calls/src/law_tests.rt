use fond_ast::laws::{
    outcomes_come_next, states_are_their_atoms, successors_are_outcomes, truth_is_local,
    truth_is_tested, tuples_lie_in_ranges,
};
use fond_best::laws::{certificates_are_best, right_are_rated};
use fond_cert::laws::{
    bests_are_apart, bests_are_clean, bests_differ, documents_differ, faults_are_one,
    spellings_are_clean, spellings_differ, tables_are_clean, tables_differ,
};
use fond_check::laws::right_are_accepted;
use fond_games::laws::{
    fair_solutions_are_strong_cyclic, kept_tours_are_lassos, lassos_decide, rankings_decide,
    tours_exist, unfair_solutions_are_strong,
};
use fond_policy::laws::{covers_are_solutions, items_are_closed};
use fond_reader::laws::{clean_domains_are_read, clean_problems_are_read};
use fond_regress::laws::stable_cubes_are_sure;
use fond_rules::laws::{earlier_rules_decide, selected_rule_is_policy};
use fond_succ::laws::{
    ground_tasks_agree, ground_tasks_play, outcomes_lead_alike, stands_is_injective, texts_agree,
    traces_stand,
};
use fond_task::game_laws::{layers_force, ranks_exclude_traps, refusals_hold};
use fond_task::laws::{full_cubes_are_exact, images_are_sound, values_are_sound};
use fond_tree::laws::{
    no_forest_has_a_fault, no_tree_has_a_fault, one_fault, one_forest, one_tree,
    read_trees_are_short,
};

#[test]
fn laws_of_files_can_be_called() {
    one_tree();
    one_forest();
    no_tree_has_a_fault();
    no_forest_has_a_fault();
    one_fault();
    read_trees_are_short();
    clean_domains_are_read();
    clean_problems_are_read();
}

#[test]
fn laws_of_grounding_can_be_called() {
    ground_tasks_play();
    ground_tasks_agree();
    outcomes_lead_alike();
    texts_agree();
    stands_is_injective();
    traces_stand();
}

#[test]
fn laws_of_tasks_can_be_called() {
    values_are_sound();
    images_are_sound();
    full_cubes_are_exact();
    selected_rule_is_policy();
    earlier_rules_decide();
}

#[test]
fn laws_of_meaning_can_be_called() {
    truth_is_local();
    states_are_their_atoms();
    tuples_lie_in_ranges();
    truth_is_tested();
    outcomes_come_next();
    successors_are_outcomes();
}

#[test]
fn laws_of_games_can_be_called() {
    ranks_exclude_traps();
    covers_are_solutions();
    items_are_closed();
    layers_force();
    refusals_hold();
    stable_cubes_are_sure();
}

#[test]
fn laws_of_certificates_can_be_called() {
    spellings_differ();
    spellings_are_clean();
    faults_are_one();
    tables_differ();
    tables_are_clean();
    documents_differ();
    right_are_accepted();
}

#[test]
fn laws_of_lassos_can_be_called() {
    lassos_decide::<u32, u32>();
    rankings_decide::<u32, u32>();
    fair_solutions_are_strong_cyclic::<u32, u32>();
    unfair_solutions_are_strong::<u32, u32>();
    tours_exist();
    kept_tours_are_lassos::<u32, u32>();
}

#[test]
fn laws_of_least_ranks_can_be_called() {
    bests_differ();
    bests_are_clean();
    bests_are_apart();
    certificates_are_best();
    right_are_rated();
}
