// The words about lists that the definitions of the other crates share. No code: specs/Lists.antt holds definitions, proofs/ their laws.
#![tactic(auto)]
