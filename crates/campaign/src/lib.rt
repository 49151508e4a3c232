//! What a campaign of single faults is.
//!
//! A campaign runs a list with a script, and then with each single fault more that changes anything, and
//! tells in a line what each one cost: who left, who was hurt without being faulty, when the memberships
//! of nodes that are not faulty were split, and what is left at the end. This crate says what is tried
//! (`specs/Tried.antt`), what is read of a run (`specs/Cost.antt`), and how it is written
//! (`specs/CostText.antt`, `specs/Lines.antt`), over the world and the tests of scripts that ttp_world
//! defines. A run is that of `specs/ZerosWorld.antt` of ttp_world, one for all legal message numbers.
//!
//! A fault is an event as any other: the run with it is that of the script with this event behind the
//! others (`with_fault`), and which are tried in a slot follows from the row of that slot in the script's
//! own run (`faults_in`). Of a run are read the newest time that each node left, who left though not
//! faulty by the rules of the script's test, the slots after which correct nodes that are active and not
//! in doubt hold two memberships or more, and the memberships at the end. The sets of faulty nodes are
//! those of the tests, and go on past a slot that breaks the rule on losses.
//!
//! The whole text is `campaign_lines`, which `put_campaign` of fault_runs writes. `a_quiet_run` of
//! lab_rows has one of its lines:
//!
//! ```text
//! ensures own { own_line five (summary five quiet)
//!     ≡ codes "slot - node - keeps yes start 10 left - hurt - split - - end 001f fault -\n" }
//! ```
//!
//! It has no code but for the types of what a run costs, and promises nothing: the words are those of the
//! contracts above it.
#![tactic(auto)]

mod cost;

pub use cost::{Cost, Counts, Leave, Span};
