// Lengths and books at the edges.
ghost use Rattle.std.specs.Prelude.{◌≡◌};
ghost use Rattle.measure.specs.Replies.{Compared};

use crate::book::{Book, Size};
use crate::books::{FlatBook, HouseBook, PartitionBook};
use crate::lengths::{Millimetres, PartitionLength};
use crate::{Measure, OrderedMeasure};
use fault::Fault;
use std::cmp::Ordering;
use std::fmt::Debug;
use std::process::Abort;
use std::test::Fail;

mod marked;

const TOP: u32 = 1_073_741_824;

fn mm(figure: u32) -> Result<Millimetres, Fail> {
    Ok(Millimetres::new(figure)?)
}

fn by(width: u32, depth: u32) -> Result<Size<Millimetres>, Fail> {
    Ok(Size {
        width: mm(width)?,
        depth: mm(depth)?,
    })
}

fn crossing(figures: (u32, u32)) -> Result<PartitionLength, Fail> {
    Ok(PartitionLength::new(figures.0, figures.1)?)
}

#[test]
fn figures_past_the_greatest_extent_are_refused(rt: HostRuntime) -> Result<(), Fail> {
    assert_eq!(rt; Millimetres::new(0)?.extent(), 0);
    assert_eq!(rt; Millimetres::new(TOP)?.extent(), TOP);
    for figure in [TOP + 1, u32::MAX] {
        assert_eq!(rt; Millimetres::new(figure), Err(Fault::OutOfRange));
    }
    for (clear, partitions) in [(0, 0), (TOP, 0), (TOP - 100, 1), (24, 10_737_418)] {
        let length = crossing((clear, partitions))?;
        assert_eq!(rt; length.clear(), clear);
        assert_eq!(rt; length.partitions(), partitions);
        assert_eq!(rt; length.extent(), clear + 100 * partitions);
    }
    // 42,949,673 partitions are 4 mm past 2^32
    let past = [
        (TOP + 1, 0),
        (TOP - 99, 1),
        (25, 10_737_418),
        (0, 10_737_419),
        (0, 42_949_673),
        (u32::MAX, 0),
        (0, u32::MAX),
        (u32::MAX, u32::MAX),
    ];
    for (clear, partitions) in past {
        assert_eq!(rt;
            PartitionLength::new(clear, partitions),
            Err(Fault::OutOfRange)
        );
    }
    Ok(())
}

// The rows of the two measures stay apart, here and where lengths are written: their figures have different types, and one loop for both is no plainer.
#[test]
fn sums_end_at_the_greatest_extent(rt: HostRuntime) -> Result<(), Fail> {
    for (a, b) in [(0, 0), (0, TOP), (TOP - 1, 1), (TOP / 2, TOP / 2)] {
        assert_eq!(rt; mm(a)?.add(mm(b)?), Some(mm(a + b)?));
    }
    for (a, b) in [(1, TOP), (TOP / 2, TOP / 2 + 1), (TOP, TOP)] {
        assert_eq!(rt; mm(a)?.add(mm(b)?), None);
    }
    let sums = [
        ((2400, 1), (1500, 1), (3900, 2)),
        ((TOP - 100, 0), (0, 1), (TOP - 100, 1)),
        ((0, 10_737_418), (24, 0), (24, 10_737_418)),
    ];
    for (a, b, sum) in sums {
        assert_eq!(rt; crossing(a)?.add(crossing(b)?), Some(crossing(sum)?));
    }
    let past = [
        ((TOP - 99, 0), (0, 1)),
        ((0, 10_737_418), (25, 0)),
        ((0, 10_737_418), (0, 10_737_418)),
        ((TOP, 0), (TOP, 0)),
    ];
    for (a, b) in past {
        assert_eq!(rt; crossing(a)?.add(crossing(b)?), None);
    }
    Ok(())
}

#[test]
fn zero_changes_nothing(rt: HostRuntime) -> Result<(), Fail> {
    is_neutral(&rt, mm(0)?, mm(7)?);
    is_neutral(&rt, crossing((0, 0))?, crossing((7, 3))?);
    Ok(())
}

// `zero` is the zero of its measure, and adding it to `x` at either end gives `x`.
fn is_neutral<M: Measure + PartialEq + Debug>(rt: &impl Abort, zero: M, x: M) {
    assert_eq!(rt; M::zero(), zero);
    assert_eq!(rt; zero.add(x), Some(x));
    assert_eq!(rt; x.add(zero), Some(x));
}

#[test]
fn more_partitions_are_the_lesser_at_equal_distance(rt: HostRuntime) -> Result<(), Fail> {
    assert_eq!(rt; mm(3)?.compare(mm(4)?), Ordering::Less);
    assert_eq!(rt; mm(4)?.compare(mm(4)?), Ordering::Equal);
    assert_eq!(rt; mm(5)?.compare(mm(4)?), Ordering::Greater);
    assert!(rt; mm(3)? < mm(4)?);
    assert_eq!(rt; order(mm(3)?, mm(4)?), Ordering::Less);
    // from the least to the greatest
    let rising = [
        (0, 0),
        (99, 0),
        (0, 1),
        (100, 0),
        (1, 1),
        (101, 0),
        (0, 2),
        (100, 1),
        (200, 0),
        (24, 10_737_418),
        (TOP - 100, 1),
        (TOP, 0),
    ];
    rises(&rt, &rising)
}

// Each is below those after it, above those before it, and equal to itself alone.
fn rises(rt: &impl Abort, rising: &[(u32, u32)]) -> Result<(), Fail> {
    for (i, a) in rising.iter().enumerate() {
        for (j, b) in rising.iter().enumerate() {
            assert_eq!(rt; crossing(*a)?.compare(crossing(*b)?), i.cmp(&j));
            assert_eq!(rt; order(crossing(*a)?, crossing(*b)?), i.cmp(&j));
            assert_eq!(rt; crossing(*a)? < crossing(*b)?, i < j);
        }
    }
    Ok(())
}

// The order of two values, as code that is generic in the measure finds it.
fn order<M: OrderedMeasure>(a: M, b: M) -> Ordering
    ensures { Compared M.Measure.model M.Measure.means a b result }
{
    a.cmp(&b)
}

// The greatest step, as code that is generic in the measure reads it.
fn greatest_step<M: Measure>() -> u32
    ensures { result ≡ M.GREATEST_STEP }
{
    M::GREATEST_STEP
}

#[test]
fn greatest_steps(rt: HostRuntime) {
    assert_eq!(rt; Millimetres::GREATEST_STEP, 60_000);
    assert_eq!(rt; greatest_step::<Millimetres>(), 60_000);
    assert_eq!(rt; PartitionLength::GREATEST_STEP, 60_100);
    assert_eq!(rt; greatest_step::<PartitionLength>(), 60_100);
}

// The book says these sizes of these uses, and nothing of any other.
fn says(
    rt: &impl Abort,
    book: &impl Book<M = Millimetres>,
    rows: &[(u8, u32, u32)],
) -> Result<(), Fail> {
    for purpose in 0..=255u8 {
        let row = rows.iter().find(|row| row.0 == purpose);
        let size = row.map(|row| by(row.1, row.2)).transpose()?;
        assert_eq!(rt; book.lookup(purpose), size, "use {purpose}");
    }
    Ok(())
}

#[test]
fn the_house_has_six_uses(rt: HostRuntime) -> Result<(), Fail> {
    let rows = [
        (1, 1200, 1200),
        (2, 2400, 3000),
        (3, 3600, 3600),
        (4, 1500, 1800),
        (5, 1800, 1200),
        (6, 2400, 2400),
    ];
    says(&rt, &HouseBook, &rows)
}

#[test]
fn a_flat_book_has_one_size(rt: HostRuntime) -> Result<(), Fail> {
    for (width, depth) in [
        (1, 1),
        (1, 60_000),
        (60_000, 1),
        (60_000, 60_000),
        (900, 1100),
    ] {
        let book = FlatBook::new(width, depth)?;
        assert_eq!(rt; book.lookup(0), None);
        for purpose in [1, 6, 7, 255] {
            assert_eq!(rt; book.lookup(purpose), Some(by(width, depth)?));
        }
    }
    for figure in [0, 60_001, u32::MAX] {
        assert_eq!(rt; FlatBook::new(figure, 1), Err(Fault::OutOfRange));
        assert_eq!(rt; FlatBook::new(1, figure), Err(Fault::OutOfRange));
        assert_eq!(rt; FlatBook::new(figure, figure), Err(Fault::OutOfRange));
    }
    Ok(())
}

fn crossed(width: (u32, u32), depth: (u32, u32)) -> Result<Size<PartitionLength>, Fail> {
    Ok(Size {
        width: crossing(width)?,
        depth: crossing(depth)?,
    })
}

#[test]
fn a_partition_book_adds_a_partition_to_each_size(rt: HostRuntime) -> Result<(), Fail> {
    let house = PartitionBook { below: HouseBook };
    assert_eq!(rt; house.lookup(2), Some(crossed((2400, 1), (3000, 1))?));
    assert_eq!(rt; house.lookup(6), Some(crossed((2400, 1), (2400, 1))?));
    for purpose in [0, 7, 255] {
        assert_eq!(rt; house.lookup(purpose), None);
    }
    let flat = PartitionBook {
        below: FlatBook::new(60_000, 1)?,
    };
    let size = crossed((60_000, 1), (1, 1))?;
    assert_eq!(rt; flat.lookup(255), Some(size));
    assert_eq!(rt; size.width.extent(), PartitionLength::GREATEST_STEP);
    assert_eq!(rt; flat.lookup(0), None);
    Ok(())
}

#[test]
fn lengths_are_written_in_digits(rt: HostRuntime) -> Result<(), Fail> {
    for (figure, text) in [(0, "0"), (3600, "3600"), (TOP, "1073741824")] {
        assert_eq!(rt; mm(figure)?.to_string(rt.alloc())?.as_str(), text);
    }
    let rows = [
        ((0, 0), "0+0"),
        ((2400, 1), "2400+1"),
        ((24, 10_737_418), "24+10737418"),
    ];
    for (figures, text) in rows {
        assert_eq!(rt; crossing(figures)?.to_string(rt.alloc())?.as_str(), text);
    }
    Ok(())
}
