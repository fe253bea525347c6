#![tactic(auto)]

// No code: definitions in specs/ that several crates share (digits, words, the first hit, a run over a list), and their laws in proofs/.
