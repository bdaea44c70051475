#![tactic(auto)]

// The papers' own grammar, to be read beside them and believed: specs/ Notation, Values, Papers and Page. The rest of specs/ and proofs/ proves that it is the reader's and the writer's, and nothing in them has to be believed but what their theorems say.
