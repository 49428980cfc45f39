// Marks on numbers from 0 on.
ghost use Rattle.std.specs.Prelude.{◌≡◌, ◌<◌, All, IfOk, false, true, length, replicate, slice_index_or, slice_set};
ghost use Rattle.node_rules.specs.Marks.{MarksMore};

use service_model::{List, NoMemory};
use std::alloc::Global;

/// So many marks, none set.
pub fn no_marks(alloc: Global, count: usize) -> Result<List<bool>, NoMemory>
    ensures { IfOk result (λ marks. marks ≡ replicate count false) }
{
    Ok(List::from_vec(vec![in alloc; false; count]?))
}

/// Sets a mark, and says whether it was set.
pub fn mark(marks: &mut List<bool>, number: u32) -> bool
    requires { number < length marks.old }
    ensures was { result ≡ slice_index_or marks.old number false }
    ensures set { marks.new ≡ slice_set marks.old number true }
{
    let was = *marks.get(number as usize);
    marks.set(number as usize, true);
    was
}

/// Sets the marks of these numbers.
#[tactic(auto, using(crate::proofs::MarkFacts::marks_next))]
pub fn mark_all(marks: &mut List<bool>, numbers: &[u32])
    requires { All (λ k. k < length marks.old) numbers.now }
    ensures { MarksMore numbers.now marks.old marks.new }
{
    'numbers: for number in numbers {
        marks.set(*number as usize, true);
    }
}
