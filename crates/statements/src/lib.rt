// What is proved over all: this crate holds statements about the definitions and contracts of the others, and no code.
#![tactic(auto)]
