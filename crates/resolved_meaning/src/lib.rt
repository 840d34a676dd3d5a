//! The program that a resolved program stands for, as the meaning of programs sees it: in specs/ its trees
//! without nodes and its constants as values.
#![tactic(auto)]
