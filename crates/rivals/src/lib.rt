// The candidates of a column: packed from its words, and thinned by their neighbours' points, by the ends of the band and by the refinement. A column's
// lines lie in a slot of a ring of three columns; x, y and z are the slots of the column before it, of its own and of the one after it. The code of a
// candidate is i for the minimum and 780 + i for the maximum of the pixel at place i + 1 of the lines.
#![tactic(auto)]

pub mod ends;
pub mod list;
pub mod near;
pub mod pack;
pub mod thin;
