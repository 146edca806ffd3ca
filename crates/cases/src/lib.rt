// The cases by letter, A to L: a table about the definitions of the other crates, in specs/, and the statement that it
// holds, in proofs/.
#![tactic(auto)]
