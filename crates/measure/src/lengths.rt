// The lengths of the two measures. What they do is in `millimetre` and `partition`, since those contracts cite what names the lengths.
ghost use Rattle.std.specs.Prelude.{◌+◌, ◌*◌, ◌^◌, ◌≤◌};

mod millimetre;
mod partition;

// Whole millimetres.
#[derive(Clone, Copy, PartialEq, Eq, PartialOrd, Ord, Debug)]
pub struct Millimetres {
    pub(crate) figure: u32,
    ghost small: { figure ≤ 2 ^ 30 },
}

// Millimetres in the clear, and the partitions crossed, each of them 100 mm thick.
#[derive(Clone, Copy, PartialEq, Eq, Debug)]
pub struct PartitionLength {
    pub(crate) clear: u32,
    pub(crate) partitions: u32,
    ghost small: { clear + 100 * partitions ≤ 2 ^ 30 },
}
