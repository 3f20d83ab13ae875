// Values that JSON says.

ghost use Rattle.std.specs.Prelude.{◌≡◌, ◌≤◌, ◌<◌, IfSome, List, Option, Some, None, take};
ghost use Rattle.serde_json.specs.Data.{Data};
ghost use Rattle.serde_json.specs.View.{view, items_view};
ghost use Rattle.sect_words.specs.Reading.{Means};
ghost use Rattle.sect_wire.specs.Values.{
  course_in,
  each_in,
  list_in,
  optional_in,
  ranged,
  section_in,
  small,
  student_in,
  u32_in,
  u64_in,
};

use sect_base::{Alternatives, CourseId, Items, SectionId, StudentId};
use sect_words::Fault;
use serde_json::Value;
use std::alloc::Global;

/// A value that is read from a JSON value.
pub(crate) trait FromJson: Drop {
    // The value that some data says, where it says one.
    ghost reads: { Data → Option Self };

    /// `Bad` exactly where it says none, unless memory ran out.
    fn read(alloc: Global, value: &Value) -> Result<Self, Fault>
        ensures { Means result (reads (view value.now)) };
}

/// The number of at most `most`, where the value is one in digits alone.
#[tactic(auto, unfolding(crate::specs::Values::small))]
pub(crate) fn small(value: &Value, most: u64) -> Option<u64>
    ensures range { IfSome result (λ n. n ≤ most) }
    ensures reads { result ≡ small most (view value.now) }
{
    let number = value.as_u64()?;
    if number <= most { Some(number) } else { None }
}

/// The number from 1 to `most`.
#[tactic(auto, unfolding(crate::specs::Values::ranged))]
pub(crate) fn ranged(value: &Value, most: u32) -> Option<u32>
    ensures range { IfSome result (λ n. (0 < n) × (n ≤ most)) }
    ensures reads { result ≡ ranged most (view value.now) }
{
    let number = small(value, u64::from(most))? as u32;
    if 1 <= number { Some(number) } else { None }
}

/// The number of at most 4,294,967,295.
fn read_u32(value: &Value) -> Result<u32, Fault>
    ensures { Means result (u32_in (view value.now)) }
{
    match small(value, 4_294_967_295) {
        Some(number) => Ok(number as u32),
        None => Err(Fault::Bad),
    }
}

impl FromJson for u64 {
    ghost reads = { u64_in };

    fn read(_alloc: Global, value: &Value) -> Result<u64, Fault> {
        match small(value, u64::MAX) {
            Some(number) => Ok(number),
            None => Err(Fault::Bad),
        }
    }
}

impl FromJson for CourseId {
    ghost reads = { course_in };

    fn read(_alloc: Global, value: &Value) -> Result<CourseId, Fault> {
        Ok(CourseId(read_u32(value)?))
    }
}

impl FromJson for SectionId {
    ghost reads = { section_in };

    fn read(_alloc: Global, value: &Value) -> Result<SectionId, Fault> {
        Ok(SectionId(read_u32(value)?))
    }
}

impl FromJson for StudentId {
    ghost reads = { student_in };

    fn read(_alloc: Global, value: &Value) -> Result<StudentId, Fault> {
        Ok(StudentId(read_u32(value)?))
    }
}

/// The values that the elements say, in their order.
fn read_each<T: FromJson>(alloc: Global, values: &[Value]) -> Result<Items<T>, Fault>
    ensures { Means result (each_in T.reads (items_view values.now)) }
{
    let mut rest = values;
    let mut items = Vec::new(alloc);
    while let [first, more @ ..] = rest {
        items.push(T::read(alloc, first)?)?;
        rest = more;
    }
    Ok(Items::from_vec(items))
}

#[tactic(auto, unfolding(crate::specs::Values::list_in))]
impl<T: FromJson> FromJson for Items<T> {
    ghost reads = { list_in T.reads };

    fn read(alloc: Global, value: &Value) -> Result<Items<T>, Fault> {
        match value.as_array() {
            Some(values) => read_each(alloc, values),
            None => Err(Fault::Bad),
        }
    }
}

impl FromJson for Alternatives {
    ghost reads = { list_in course_in };

    fn read(alloc: Global, value: &Value) -> Result<Alternatives, Fault> {
        let courses = Items::<CourseId>::read(alloc, value)?;
        Ok(Alternatives::from_slice(alloc, courses.as_slice())?)
    }
}

#[tactic(auto, unfolding(crate::specs::Values::optional_in))]
impl<T: FromJson> FromJson for Option<T> {
    ghost reads = { optional_in T.reads };

    fn read(alloc: Global, value: &Value) -> Result<Option<T>, Fault> {
        if value.is_null() {
            return Ok(None);
        }
        Ok(Some(T::read(alloc, value)?))
    }
}
