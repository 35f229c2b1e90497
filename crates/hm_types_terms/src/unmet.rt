//! Faults of lenses.
ghost use Rattle.std.specs.Prelude.{◌≡◌};
ghost use Rattle.hm_types_terms.specs.declared.fault.TypeFault.TheVariants.{Mistyped};

use crate::course::Course;
use crate::fault::TypeFault;

/// A condition of a rule isn't met by the lens of this number.
pub fn unmet(course: &Course, number: usize, rule: u8) -> TypeFault
    ensures { result ≡ Mistyped course.now.definition number rule }
{
    TypeFault::Mistyped {
        definition: course.definition,
        term: number,
        rule,
    }
}
