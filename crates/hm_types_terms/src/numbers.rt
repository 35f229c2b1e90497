//! The numbers of lenses.
ghost use Rattle.std.specs.Prelude.{◌≡◌, ◌+◌, Some, slice_get};
ghost use Rattle.hm_terms.specs.Lenses.{Lens};
ghost use Rattle.hm_types_rules.specs.Faults.{size_of};
ghost use Rattle.hm_types_terms.specs.Numbers.{parts_of, StandFrom};
ghost use Rattle.hm_types_terms.specs.Courses.{lenses_in, IsNumbered};

use crate::course::Course;

/// The number behind a lens and all lenses in it.
pub fn behind(course: &Course, number: usize) -> usize
    requires { IsNumbered course.now number }
    ensures { (l : Lens) → StandFrom (lenses_in course.now) number (parts_of l) → result ≡ number + size_of l }
{
    number + course.parts[number - 1].size
}

/// The place of the lens under which what is found of a lens is remembered, which is equal.
pub fn like(course: &Course, number: usize) -> usize
    requires { IsNumbered course.now number }
    ensures { (l : Lens) → StandFrom (lenses_in course.now) number (parts_of l) → slice_get (lenses_in course.now) result ≡ Some l }
{
    course.alike[number - 1]
}
