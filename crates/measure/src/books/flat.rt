// The flat book.
ghost use Rattle.std.specs.Prelude.{◌≡◌, MatchResult, refl};
ghost use Rattle.measure.specs.Books.{FlatMade, flat};
ghost use Rattle.measure.specs.Lengths.{Sized};
ghost use Rattle.measure.specs.Tables.{flat_lawful};
ghost use Rattle.fault.specs.declared.Fault.TheVariants.{OutOfRange};

use crate::Measure;
use crate::book::{Book, Size};
use crate::books::FlatBook;
use crate::lengths::Millimetres;
use fault::Fault;

impl FlatBook {
    // A book of this width and depth, each 1 to 60,000 mm, or out of range. A constructor of two named figures, as of a partition length: `TryFrom` of a pair is no plainer.
    pub fn new(width: u32, depth: u32) -> Result<FlatBook, Fault>
        ensures { FlatMade width depth result }
    {
        let width = sized(width)?;
        let depth = sized(depth)?;
        Ok(FlatBook {
            size: Size { width, depth },
        })
    }
}

// A width or a depth, or out of range.
fn sized(figure: u32) -> Result<Millimetres, Fault>
    ensures { MatchResult result (λ x. (x.figure ≡ figure) × Sized figure) (λ f. (f ≡ OutOfRange) × (Sized figure → ⊥)) }
{
    if !(1..=Millimetres::GREATEST_STEP).contains(&figure) {
        return Err(Fault::OutOfRange);
    }
    Ok(Millimetres { figure })
}

impl Book for FlatBook {
    type M = Millimetres;

    ghost table = { flat };

    ghost lawful = { λ b u h. flat_lawful b u };

    ghost unused = { λ b. refl };

    fn lookup(&self, purpose: u8) -> Option<Size<Millimetres>> {
        if purpose == 0 {
            return None;
        }
        Some(self.size)
    }
}
