// A compare block that has power and no reset, over matrices that nothing else changes, reports each differing position
// exactly once in every round of scans. The crate has no code: what a round is stands in `specs/`, that scans keep it
// in `proofs/`. Beside it what a compare counts, and MBIT's middle lamp.
#![tactic(auto)]
