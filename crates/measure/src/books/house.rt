// The house book.
ghost use Rattle.std.specs.Prelude.{◌≡◌, ◌≤◌, refl};
ghost use Rattle.measure.specs.Books.{by, house, listed};
ghost use Rattle.measure.specs.Rows.{rows_lawful};

use crate::book::{Book, Size};
use crate::books::HouseBook;
use crate::lengths::Millimetres;

// A size of two figures in millimetres. Figures up to 60,000 are not cut.
#[tactic(auto, using(crate::proofs::Values::same_size))]
fn size(width: u32, depth: u32) -> Size<Millimetres>
    requires width_bound { width ≤ 60000 }
    requires depth_bound { depth ≤ 60000 }
    ensures { result ≡ by width depth }
{
    Size {
        width: Millimetres { figure: width },
        depth: Millimetres { figure: depth },
    }
}

impl Book for HouseBook {
    type M = Millimetres;

    ghost table = { λ b. listed house };

    ghost lawful = { λ b u h. rows_lawful house refl u };

    ghost unused = { λ b. refl };

    // By the numbers of uses, as words carry them: an enum of six uses would say each number a second time and is no plainer.
    fn lookup(&self, purpose: u8) -> Option<Size<Millimetres>> {
        match purpose {
            1 => Some(size(1200, 1200)),
            2 => Some(size(2400, 3000)),
            3 => Some(size(3600, 3600)),
            4 => Some(size(1500, 1800)),
            5 => Some(size(1800, 1200)),
            6 => Some(size(2400, 2400)),
            _ => None,
        }
    }
}
