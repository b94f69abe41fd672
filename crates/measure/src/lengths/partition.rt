// Partition lengths as a measure.
ghost use Rattle.std.specs.Prelude.{◌≡◌, ◌+◌, ◌*◌, Some, refl};
ghost use Rattle.measure.specs.Replies.{Made};
ghost use Rattle.measure.specs.Lengths.{crossing, crossings, crossing_of};
ghost use Rattle.measure.specs.Measures.{crossings_lawful};
ghost use Rattle.measure.specs.Comparisons.{crossing_cmp, crossing_cmp_total, crossing_ties, crossings_ordered};
ghost use Rattle.std.specs.Cmp.{partial_order_from_agreeing_total};
ghost use Rattle.std.specs.Ordering.{as_partial_cmp, on};
ghost use Rattle.std.proofs.lemmas.Cmp.{on_total};
ghost use Rattle.measure.specs.Texts.{partition_text};
ghost use Rattle.std.proofs.Common.{lit≤};

use crate::lengths::PartitionLength;
use crate::{GREATEST_EXTENT, Measure, OrderedMeasure};
use fault::Fault;
use std::cmp::Ordering;
use std::fmt;

// The thickness of a partition in millimetres.
const THICKNESS: u32 = 100;

// The distance of any figures, in more bits than they have.
fn distance(clear: u32, partitions: u32) -> u64
    ensures { result ≡ clear + 100 * partitions }
{
    u64::from(clear) + u64::from(THICKNESS) * u64::from(partitions)
}

impl PartitionLength {
    // So many millimetres in the clear and so many partitions, or out of range. A constructor of two named figures: `TryFrom` of a pair is no plainer.
    pub fn new(clear: u32, partitions: u32) -> Result<PartitionLength, Fault>
        ensures { Made crossings crossing_of (crossing clear partitions) result }
    {
        if distance(clear, partitions) > u64::from(GREATEST_EXTENT) {
            return Err(Fault::OutOfRange);
        }
        Ok(PartitionLength { clear, partitions })
    }

    // The millimetres in the clear.
    pub fn clear(self) -> u32
        ensures { result ≡ (crossing_of self).clear }
    {
        self.clear
    }

    // The partitions crossed.
    pub fn partitions(self) -> u32
        ensures { result ≡ (crossing_of self).partitions }
    {
        self.partitions
    }
}

// A smaller distance is the lesser; at equal distance, more partitions are the lesser.
impl Ord for PartitionLength {
    ghost cmp = { on crossing_of crossing_cmp };

    ghost total = { on_total crossing_of crossing_cmp_total };

    ghost matches_partial_cmp = { λ x y. refl };

    ghost matches_eq = { crossing_ties };

    fn cmp(&self, other: &PartitionLength) -> Ordering {
        self.extent()
            .cmp(&other.extent())
            .then(other.partitions.cmp(&self.partitions))
    }
}

impl PartialOrd for PartitionLength {
    ghost partial_cmp = { as_partial_cmp (on crossing_of crossing_cmp) };

    ghost laws = { partial_order_from_agreeing_total (on crossing_of crossing_cmp) (on_total crossing_of crossing_cmp_total) (λ x y. refl) crossing_ties };

    fn partial_cmp(&self, other: &PartitionLength) -> Option<Ordering> {
        Some(self.cmp(other))
    }
}

impl Measure for PartitionLength {
    const GREATEST_STEP: u32 = 60_100;

    ghost GREATEST_STEP = { 60100 };

    ghost model = { crossings };

    ghost means = { crossing_of };

    ghost lawful = { crossings_lawful };

    ghost bounded = { λ x. x.small };

    ghost moderate = { lit≤ tt };

    fn zero() -> PartitionLength {
        PartitionLength {
            clear: 0,
            partitions: 0,
        }
    }

    fn add(self, other: PartitionLength) -> Option<PartitionLength> {
        let clear = self.clear + other.clear;
        let partitions = self.partitions + other.partitions;
        // In 32 bits, where the figures of two values fit. Made by `new`, whose test takes any figures, a sum took 1.4 to 1.6 times as long.
        if THICKNESS * partitions + clear > GREATEST_EXTENT {
            return None;
        }
        Some(PartitionLength { clear, partitions })
    }

    fn compare(self, other: PartitionLength) -> Ordering {
        self.cmp(&other)
    }

    // In 32 bits, where the distance of a value fits; `distance` is for any figures. One function for both would convert at each call, and is no plainer.
    fn extent(self) -> u32 {
        THICKNESS * self.partitions + self.clear
    }
}

impl OrderedMeasure for PartitionLength {
    ghost ordered = { crossings_ordered };
}

impl fmt::Display for PartitionLength {
    ghost output = { λ x. Some (partition_text x) };

    fn fmt<W: fmt::Write>(&self, f: &mut fmt::Formatter<W>) -> fmt::Result {
        write!(f, "{}+{}", self.clear, self.partitions)
    }
}
