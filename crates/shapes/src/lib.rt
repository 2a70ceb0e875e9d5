// The two kinds of space: boxes over points of the plane, strips over points of a web.
#![tactic(auto)]

pub mod box_range;
pub mod boxes;
pub mod coordinate;
pub mod lists;
pub mod shape;
pub mod strip_range;
pub mod strips;
