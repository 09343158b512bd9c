//! Laws of states and of the blobs that stand for them: what a write, a change, a deletion and a new version leave valid, held
//! and standing. No keeper is named here. `specs/Parts` has the words; `proofs/` the lemmas, which the laws of commits,
//! deletions and scripts cite.
#![tactic(auto)]
