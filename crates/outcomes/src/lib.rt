#![tactic(auto)]

// Statements and their proofs alone, no code: no contract of a public function leaves a second outcome, and a refused call leaves
// every lent slice as it was.
