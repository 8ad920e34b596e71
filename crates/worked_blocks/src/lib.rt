// The documents' worked blocks, computed from the definitions. proofs/Starred.antt has document 01's starred ones as a group; CandidateBlocks and CapBlocks those of candidates and
// of caps, with answers of the Rust where a rule shows; BoundaryBlocks what document 02 says of C8's square, and small lists that each show a rule. No code.
#![tactic(auto)]
