// The cases at the edges of the rules, proved as one list.
#![tactic(auto)]

mod edges;

pub use edges::edge_cases_stand;
