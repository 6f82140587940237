// Maps of four levels, and what is read of a level by its view.
#![tactic(auto)]

pub mod map; // map.rt: four levels, with what they are judged by
pub mod view; // view.rt: a level as its pixels and its rows
