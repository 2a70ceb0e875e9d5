use crate::box_range::BoxRange;
use crate::lists::Lists;

// The space of boxes over points of the plane.
pub type Boxes<'a> = Lists<'a, BoxRange>;
