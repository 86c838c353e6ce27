// From a day's accounts, in lent slices, to each member's loss, T and the day's own Max EUL.
#![tactic(auto)]

mod account;
mod accounts;
pub mod day;
mod member;
mod rows;
