//! Tests of what reads a source: words and texts, tokens, trees and the sample programs.
#![tactic(auto)]

#[cfg(test)]
mod base;
#[cfg(test)]
mod sample;
#[cfg(test)]
mod show;
#[cfg(test)]
mod token;
#[cfg(test)]
mod tree;
