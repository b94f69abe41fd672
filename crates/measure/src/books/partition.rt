// The partition book.
ghost use Rattle.std.specs.Prelude.{◌≡◌, ◌≤◌};
ghost use Rattle.measure.specs.Books.{Lawful, Partitioned, with_partitions};
ghost use Rattle.measure.specs.Lengths.{crossing_of, crossings, partitioned};
ghost use Rattle.measure.specs.Tables.{with_partitions_lawful, with_partitions_unused};

use crate::book::{Book, Size};
use crate::books::PartitionBook;
use crate::lengths::{Millimetres, PartitionLength};

// The same length with a partition on top. No `From`, since it asks that the length is at most 60,000, and it is no plainer.
fn with_partition(length: Millimetres) -> PartitionLength
    requires { length.figure ≤ 60000 }
    ensures { result ≡ partitioned length }
{
    PartitionLength {
        clear: length.figure,
        partitions: 1,
    }
}

impl<B: Book<M = Millimetres>> Book for PartitionBook<B> {
    type M = PartitionLength;

    ghost table = { λ b. with_partitions (B.Book.table b.below) };

    ghost lawful = { λ b u h. with_partitions_lawful (B.Book.table b.below) u (B.Book.lawful b.below u h) };

    ghost unused = { λ b. with_partitions_unused (B.Book.table b.below) (B.Book.unused b.below) };

    fn lookup(&self, purpose: u8) -> Option<Size<PartitionLength>>
        ensures says { result ≡ with_partitions (B.Book.table self.now.below) purpose }
        ensures lawful { Lawful crossings 60100 crossing_of result }
        ensures partitioned { Partitioned (B.Book.table self.now.below purpose) result }
    {
        let size = self.below.lookup(purpose)?;
        Some(Size {
            width: with_partition(size.width),
            depth: with_partition(size.depth),
        })
    }
}
