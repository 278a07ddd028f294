// Theory only: a run of wide step calls against the wide whole solve. Stands on wide.
#![tactic(auto)]
