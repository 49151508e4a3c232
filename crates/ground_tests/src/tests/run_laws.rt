//! The laws of runs, called once each, a test for the laws of each crate, and in safety_laws of each module.

#[test]
fn laws_of_two_scripts_that_say_the_same() {
    controller::earlier_slots::laws::histories_are_the_same();
    controller::earlier_slots::laws::a_later_event_changes_nothing();
}

#[test]
fn laws_of_payloads() {
    frame_fates::laws::runs_are_alike();
    frame_fates::laws::runs_of_numbers();
}

#[test]
fn laws_of_lines_of_frames() {
    frame_laws::laws::channels();
    frame_laws::laws::nodes();
    frame_laws::laws::unflipped();
    frame_laws::laws::way_back();
}

#[test]
fn laws_of_one_slot() {
    safety_laws::slots::views();
    safety_laws::slots::hearing();
    safety_laws::slots::one_slot();
    safety_laws::slots::one_sender();
    safety_laws::slots::judged();
    safety_laws::slots::own_slot();
    safety_laws::slots::idle();
    safety_laws::slots::listening();
    safety_laws::slots::groups();
    safety_laws::slots::unanswered();
    safety_laws::slots::start();
}

#[test]
fn laws_of_a_planned_run() {
    safety_laws::steps::by_fate();
    safety_laws::steps::safe_by_fate();
    safety_laws::steps::back_safe_by_fate();
}

#[test]
fn laws_of_clocks() {
    safety_laws::clocks::runs_as_company();
    safety_laws::clocks::clocks_near();
    safety_laws::clocks::jumped_outside();
}

#[test]
fn law_of_clocks_with_a_two_faced_sender() {
    two_faced::clocks_near();
}

#[test]
fn laws_of_safety() {
    safety_laws::runs::by_plan();
    safety_laws::runs::stands();
}

#[test]
fn law_of_nodes_that_are_armed_again() {
    safety_laws::rejoin::laws::stands();
}

#[test]
fn theorems_on_whole_runs() {
    theorems::laws::legal_runs();
    theorems::laws::kept_runs();
    theorems::laws::mode_texts();
    theorems::laws::back_runs();
    theorems::laws::faced_runs();
}
