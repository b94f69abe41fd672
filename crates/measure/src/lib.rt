// Lengths and size books: what the plan engine measures with, and how large a room of each use must be.
#![tactic(auto)]

ghost use Rattle.std.specs.Prelude.{◌≡◌, ℕ, ◌^◌, ◌≤◌};
ghost use Rattle.measure.specs.Models.{Model, Laws};
ghost use Rattle.measure.specs.Replies.{Added, Compared};

use std::cmp::Ordering;

pub mod book;
pub mod books;
pub mod lengths;
#[cfg(test)]
mod tests;

// The greatest extent of a value.
pub const GREATEST_EXTENT: u32 = 1 << 30;

// A measure: values that mean elements of a model. The model has more elements than there are values.
pub trait Measure: Copy {
    // No step's extent passes this.
    const GREATEST_STEP: u32;

    // the same, as contracts name it
    ghost GREATEST_STEP: { ℕ };

    ghost model: { Model };

    // the element that a value means
    ghost means: { Self → model.Element };

    fn zero() -> Self
        ensures { means result ≡ model.zero };

    // The sum, or nothing if the two extents together pass the greatest of a value.
    fn add(self, other: Self) -> Option<Self>
        ensures { Added model means self other result };

    // Whether this is below, equal to or above the other. Each measure writes it: one body for all would ask `Ord` of every measure.
    fn compare(self, other: Self) -> Ordering
        ensures { Compared model means self other result };

    fn extent(self) -> u32
        ensures { result ≡ model.extent (means self) };

    // What each `impl` must prove.
    ghost lawful: { Laws model };

    ghost bounded: { (x : Self) → model.extent (means x) ≤ 2 ^ 30 };

    ghost moderate: { GREATEST_STEP ≤ 1000000 };
}

// A measure whose values have an order of their own, by `Ord`, which is the model's. Not every measure has one: values of one element may differ, and `==` may tell them apart.
pub trait OrderedMeasure: Measure + Ord {
    // What each `impl` must prove.
    ghost ordered: { (x y : Self) → Compared Self.Measure.model Self.Measure.means x y (Self.Ord.cmp x y) };
}
