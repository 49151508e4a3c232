//! The laws of what views take and of a script that is written and read, each called once.

#[test]
fn law_of_runs() {
    lab_laws::taken::traces::laws::run_is_taken();
}

#[test]
fn law_of_scripts() {
    script_laws::laws::read_back();
}
