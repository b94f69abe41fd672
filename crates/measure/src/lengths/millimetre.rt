// Millimetres as a measure.
ghost use Rattle.measure.specs.Replies.{Made};
ghost use Rattle.measure.specs.Lengths.{millimetres, figure_of};
ghost use Rattle.measure.specs.Measures.{millimetres_lawful};
ghost use Rattle.measure.specs.Comparisons.{millimetres_ordered};
ghost use Rattle.measure.specs.Texts.{millimetres_text};
ghost use Rattle.std.specs.Prelude.{Some};
ghost use Rattle.std.proofs.Common.{lit≤};

use crate::lengths::Millimetres;
use crate::{GREATEST_EXTENT, Measure, OrderedMeasure};
use fault::Fault;
use std::cmp::Ordering;
use std::fmt;

impl Millimetres {
    // So many millimetres, or out of range. A constructor, as of the other length: `TryFrom` of one figure here and of a pair of figures there is no plainer.
    pub fn new(figure: u32) -> Result<Millimetres, Fault>
        ensures { Made millimetres figure_of figure result }
    {
        if figure > GREATEST_EXTENT {
            return Err(Fault::OutOfRange);
        }
        Ok(Millimetres { figure })
    }
}

impl Measure for Millimetres {
    const GREATEST_STEP: u32 = 60_000;

    ghost GREATEST_STEP = { 60000 };

    ghost model = { millimetres };

    ghost means = { figure_of };

    ghost lawful = { millimetres_lawful };

    ghost bounded = { λ x. x.small };

    ghost moderate = { lit≤ tt };

    fn zero() -> Millimetres {
        Millimetres { figure: 0 }
    }

    fn add(self, other: Millimetres) -> Option<Millimetres> {
        Millimetres::new(self.figure + other.figure).ok()
    }

    fn compare(self, other: Millimetres) -> Ordering {
        self.cmp(&other)
    }

    fn extent(self) -> u32 {
        self.figure
    }
}

impl OrderedMeasure for Millimetres {
    ghost ordered = { millimetres_ordered };
}

impl fmt::Display for Millimetres {
    ghost output = { λ x. Some (millimetres_text x) };

    fn fmt<W: fmt::Write>(&self, f: &mut fmt::Formatter<W>) -> fmt::Result {
        write!(f, "{}", self.figure)
    }
}
