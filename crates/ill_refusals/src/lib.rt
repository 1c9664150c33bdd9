//! Definitions and laws: what is due at a place, which input is refused with which fault at which offset, and the one outcome of each
//! input. No code here reads an input. Use it in contracts that speak of refusals.
#![tactic(auto)]

mod laws;

pub use laws::{
    causes_of_profiles, due_by_bare_tags, few_elements_are_open, one_outcome, one_place,
    refusals_stay, the_module_refuses_other_tags, truncated_at_the_end, values_are_small,
};
