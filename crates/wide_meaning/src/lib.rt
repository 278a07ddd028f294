// Theory only (R-8): what the answer of a wide solve means, and that the walk from a fresh record gives it. Stands on wide_walk, meaning and algebra.
#![tactic(auto)]
