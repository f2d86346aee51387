// One round of a choice, and the rounds of `pick_next`: what is made of the candidate is written into the lent words.
#![tactic(auto)]

pub mod actions;
pub mod blocks;
pub mod cases;
pub mod choice;
pub mod round;
pub mod stores;
