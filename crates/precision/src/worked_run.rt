//! Runs that were worked out by hand. The functions have no code: their contracts are the cases, and
//! the check computes them.
ghost use Rattle.std.specs.Prelude.{◌≡◌, true, pos, ◌-ℤ◌};
ghost use Rattle.ttp_world.specs.World.{world};
ghost use Rattle.precision.specs.Spread.{spread, spread_rejoining};
ghost use Rattle.precision.specs.Together.{IsCommonRun, clock_at};
ghost use Rattle.precision.specs.Company.{IsCompanyRun};
ghost use Rattle.precision.specs.WorkedCompany.{five_nodes, coming_late, none_told, run_of_coming};
ghost use Rattle.precision.specs.WorkedRun.{four_nodes, drifting, no_numbers, run_of_drifting, every_node};

/// Four nodes that start in slot 8 run together from then on, so the conditions of the bound can be
/// met. At the beginning of slot 15 two of their clocks are 11 microticks apart, where 17 are allowed.
fn clocks_drift_apart()
    ensures world { world four_nodes drifting no_numbers ≡ run_of_drifting }
    ensures together { IsCommonRun four_nodes drifting every_node 8 run_of_drifting }
    ensures apart { (clock_at four_nodes drifting run_of_drifting 0 -ℤ clock_at four_nodes drifting run_of_drifting 1)
        ≡ pos 11 }
    ensures bound { spread four_nodes ≡ pos 17 }
{}

/// Four of five nodes start in slot 10, and the last one joins them in slot 22, so the conditions of
/// the bound for a company can be met. It notes three frames until the round ends, and keeps its clock
/// as it is while the others correct theirs. At the beginning of slot 29 its clock and another are 42
/// microticks apart: more than the 41 that are allowed where none comes, and fewer than 61.
fn a_node_comes()
    ensures world { world five_nodes coming_late none_told ≡ run_of_coming }
    ensures company { IsCompanyRun five_nodes coming_late true every_node 22 run_of_coming }
    ensures apart { (clock_at five_nodes coming_late run_of_coming 3
        -ℤ clock_at five_nodes coming_late run_of_coming 4) ≡ pos 42 }
    ensures stays { spread five_nodes ≡ pos 41 }
    ensures bound { spread_rejoining five_nodes ≡ pos 61 }
{}
