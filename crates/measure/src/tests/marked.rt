// A measure whose values carry a mark that their elements lack: `==` tells apart two values of one element, so the measure has no `Ord`, and needs none.
ghost use Rattle.std.proofs.Common.{lit≤};
ghost use Rattle.measure.specs.Lengths.{millimetres};
ghost use Rattle.measure.specs.Measures.{millimetres_lawful};

use crate::Measure;
use crate::lengths::Millimetres;
use std::cmp::Ordering;
use std::test::Fail;

#[derive(Clone, Copy, PartialEq, Eq, Debug)]
struct Marked {
    length: Millimetres,
    mark: u8,
}

impl Measure for Marked {
    const GREATEST_STEP: u32 = 60_000;

    ghost GREATEST_STEP = { 60000 };

    ghost model = { millimetres };

    ghost means = { λ x. x.length.figure };

    ghost lawful = { millimetres_lawful };

    ghost bounded = { λ x. x.length.small };

    ghost moderate = { lit≤ tt };

    fn zero() -> Marked {
        Marked {
            length: Millimetres::zero(),
            mark: 0,
        }
    }

    fn add(self, other: Marked) -> Option<Marked> {
        let length = self.length.add(other.length)?;
        let mark = self.mark;
        Some(Marked { length, mark })
    }

    fn compare(self, other: Marked) -> Ordering {
        self.length.compare(other.length)
    }

    fn extent(self) -> u32 {
        self.length.extent()
    }
}

#[test]
fn values_of_one_element_may_differ(rt: HostRuntime) -> Result<(), Fail> {
    let length = Millimetres::new(7)?;
    let plain = Marked { length, mark: 0 };
    let marked = Marked { length, mark: 1 };
    assert_eq!(rt; plain.compare(marked), Ordering::Equal);
    assert_ne!(rt; plain, marked);
    let sum = marked.add(plain).ok_or("no sum")?;
    assert_eq!(rt; sum.compare(plain), Ordering::Greater);
    assert_eq!(rt; [sum.extent(), Marked::zero().extent()], [14, 0]);
    Ok(())
}
