// Positional numerals in any base: definitions in specs/, laws in proofs/. No code.
#![tactic(auto)]
