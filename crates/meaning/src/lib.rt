// Theory only: what the answer of a solve means, and that the walk over the step list gives it. Stands on walk and algebra.
#![tactic(auto)]
