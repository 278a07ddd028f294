// Theory only: what the answer of a system of values means, what each of the paper's steps does to the values, and how they lead to it.
// Over field's operations and laws; it holds no function: other crates cite its definitions (specs/) and theorems (proofs/).
#![tactic(auto)]
