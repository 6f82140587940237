// Maps that lie by columns, and buffers that are filled from the front: definitions and laws, in specs and proofs, and four levels as one value; there is no
// function here.
#![tactic(auto)]

// Four levels of a map, each by columns: whole ones, or the slices of a ring of columns.
#[derive(Clone, Copy)]
pub struct Levels<'a> {
    pub l0: &'a [f32],
    pub l1: &'a [f32],
    pub l2: &'a [f32],
    pub l3: &'a [f32],
}
