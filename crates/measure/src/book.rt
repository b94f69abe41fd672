// What a size book is.
ghost use Rattle.std.specs.Prelude.{◌≡◌, ℕ, ◌≤◌, None, Option};
ghost use Rattle.measure.specs.Books.{Lawful};
ghost use Rattle.measure.specs.declared.book.Size.{Size};

use crate::Measure;

// How large a room must be at least.
#[derive(Clone, Copy, PartialEq, Eq, Debug)]
pub struct Size<M> {
    pub width: M,
    pub depth: M,
}

// A size book: what it says of each use, in one measure.
pub trait Book {
    type M: Measure;

    // what it says of a use: nothing, or a size
    ghost table: { Self → ℕ → Option (Size Self.M) };

    // The size of a use, if the book has it.
    fn lookup(&self, purpose: u8) -> Option<Size<Self::M>>
        ensures says { result ≡ table self.now purpose }
        ensures lawful { Lawful Self.M.Measure.model Self.M.Measure.GREATEST_STEP Self.M.Measure.means result };

    // What each `impl` must prove.
    ghost lawful: { (b : Self) (u : ℕ) → u ≤ 255 → Lawful Self.M.Measure.model Self.M.Measure.GREATEST_STEP Self.M.Measure.means (table b u) };

    // 0 is no use
    ghost unused: { (b : Self) → table b 0 ≡ None };
}
