//! Lemmas over the definitions of Well-Known Binary: `specs/` has their statements, `proofs/` their proofs. There is no
//! code: who needs a lemma cites it, and users cite those that `wkb/specs/Known` passes on.
#![tactic(auto)]
