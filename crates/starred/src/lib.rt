// Theory only: 01's starred examples, and an independent model's figures share for share, each a table proved by one statement about the
// definitions. Stands on walk.
#![tactic(auto)]
