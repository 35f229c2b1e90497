//! The numbers of classes.
ghost use Rattle.std.specs.Prelude.{◌≡◌, ◌==◌, ◌<◌, ℕ, cond, OnOk, Some, length};
ghost use Rattle.hm_types_schemas.specs.Marks.{mark_at, number_of};

use hm_schema::NodeId;
use hm_tree::Memory;

// The number of a class, where it has one.
pub fn mark_at(marks: &[Option<usize>], class: usize) -> Option<usize>
    ensures { result ≡ mark_at marks.now class }
{
    if class < marks.len() {
        marks[class]
    } else {
        None
    }
}

// Gives a class its number.
pub fn mark(marks: &mut Vec<Option<usize>>, class: usize, number: usize) -> Result<(), Memory>
    ensures { OnOk result ((c : ℕ) → mark_at marks.new.items c ≡ cond (c == class) (Some number) (mark_at marks.old.items c)) }
{
    reach(marks, class)?;
    marks[class] = Some(number);
    Ok(())
}

// Makes a list so long that it has a place for a class.
fn reach(marks: &mut Vec<Option<usize>>, class: usize) -> Result<(), Memory>
    ensures long { OnOk result (class < length marks.new.items) }
    ensures same { (c : ℕ) → mark_at marks.new.items c ≡ mark_at marks.old.items c }
{
    while marks.len() <= class {
        marks.push(None)?;
    }
    Ok(())
}

// The number of the class of a node. One that has none is never asked for.
pub fn number_of(classes: &[usize], marks: &[Option<usize>], id: NodeId) -> NodeId
    requires { id.place < length classes.now }
    ensures { result ≡ number_of classes.now marks.now id }
{
    let place = match mark_at(marks, classes[id.place]) {
        Some(number) => number,
        None => 0,
    };
    NodeId { place }
}
