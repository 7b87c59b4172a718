// Tightness: two outcomes that meet the contract of a public function at one input coincide (proofs/). No code of its own.
#![tactic(auto)]
