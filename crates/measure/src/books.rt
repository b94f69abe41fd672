// The size books. What they say is in `house`, `flat` and `partition`, since those contracts cite what names the books.
ghost use Rattle.measure.specs.Lengths.{Sized};

use crate::book::Size;
use crate::lengths::Millimetres;

mod flat;
mod house;
mod partition;

// The sizes of the house, in millimetres.
#[derive(Clone, Copy, PartialEq, Eq, Debug)]
pub struct HouseBook;

// One size for every use, in millimetres.
#[derive(Clone, Copy, PartialEq, Eq, Debug)]
pub struct FlatBook {
    size: Size<Millimetres>,
    ghost width_sized: { Sized size.width.figure },
    ghost depth_sized: { Sized size.depth.figure },
}

// A book in millimetres with a partition on top of each size.
#[derive(Clone, Copy, PartialEq, Eq, Debug)]
pub struct PartitionBook<B> {
    pub below: B,
}
