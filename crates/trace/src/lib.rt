// Theory only: a run of step calls against the whole solve. Stands on solver.
#![tactic(auto)]
