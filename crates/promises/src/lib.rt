#![tactic(auto)]

// Statements and their proofs alone, no code: what is promised, in specs/, and why it holds, in proofs/.
