//! What values of programs are at low level, where they are words, bytes, truth values, strings or
//! `None`, and what a call of a helper leads to.
#![tactic(auto)]
