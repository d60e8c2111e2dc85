//! A network of nodes with threads, run from a text of settings.
#![tactic(auto)]

mod closing;
mod feeds;
mod lines;
mod living;
mod nodes;
mod opening;
mod parting;
mod planning;
mod reading;
mod refilling;
mod seats;
mod sites;
mod tallies;
