//! The rules of names on the trees alone, and that the tables of the code say the same.
#![tactic(auto)]

mod laws;

pub use laws::{
    bases_follow_the_rules, bindings_follow_the_rules, clashes_follow_the_rules,
    imports_follow_the_rules, least_fault_is_told, listing_follows_the_rules,
    locals_follow_the_rules, names_have_numbers, places_follow_the_numbering,
    scopes_follow_the_rules, sites_follow_the_rules, twice_follows_the_rules,
    uses_follow_the_rules, words_follow_the_table,
};
