//! Marks by number, as a list that grows to the greatest number that was marked.

ghost use Rattle.std.specs.Prelude.{◌≡◌, ℕ, ◌||◌, ◌==◌, [], IfOk, OnErr, OnOk};
ghost use Rattle.lk_marks.specs.Marked.{is_marked, marks_of, with_mark};

use crate::growing::make_room;
use lk_report::NoMemory;
use std::alloc::Global;
use std::marker::Model;

/// Which numbers are marked. Contracts see it as the list of the marks, from number 0 on; a number past the last
/// one is not marked.
#[derive(Drop)]
pub struct Marks {
    by_number: Vec<bool>,
}

impl Model for Marks {
    ghost use Rattle.std.specs.Prelude.{Bool, List};

    ghost Value = { List Bool };

    ghost view = { λ m. m.by_number.items };
}

impl Marks {
    /// No number is marked.
    pub fn new(alloc: Global) -> Self
        ensures { result ≡ [] }
    {
        Marks {
            by_number: Vec::new(alloc),
        }
    }

    /// A mark for each number below `count`: whether it is one of these numbers.
    ///
    /// # Errors
    /// Out of memory.
    pub fn of(alloc: Global, count: usize, numbers: &[u32]) -> Result<Self, NoMemory>
        ensures { IfOk result (λ marks. marks ≡ marks_of numbers.now count) }
    {
        let by_number = marks_of(alloc, count, numbers)?;
        Ok(Marks { by_number })
    }

    /// Whether a number is marked.
    pub fn is_marked(&self, number: u32) -> bool
        ensures { result ≡ is_marked self.now number }
    {
        self.by_number
            .get(number as usize)
            .copied()
            .unwrap_or(false)
    }

    /// Marks one number more.
    ///
    /// # Errors
    /// Out of memory: the marks are as they were.
    pub fn mark(&mut self, number: u32) -> Result<(), NoMemory>
        ensures marked { OnOk result ((k : ℕ) → is_marked self.new k ≡ (is_marked self.old k || k == number)) }
        ensures kept { OnErr result (self.new ≡ self.old) }
    {
        make_room(&mut self.by_number, number, false)?;
        self.by_number[number as usize] = true;
        Ok(())
    }

    /// Marks one number more, where it has a place: a number past the last mark gets none, and no memory is taken.
    pub fn mark_within(&mut self, number: u32)
        ensures { self.new ≡ with_mark self.old number }
    {
        set_mark(&mut self.by_number, number);
    }

    /// Clears all marks, and keeps the memory for the next ones.
    pub fn clear(&mut self)
        ensures { self.new ≡ [] }
    {
        self.by_number.clear();
    }

    /// The marks by number, from 0 on.
    pub fn as_slice(&self) -> &[bool]
        ensures { result.now ≡ self.now }
    {
        &self.by_number
    }
}

/// Marks a number of a list; one past the last has no mark.
#[tactic(auto, using(crate::proofs::MarksMade::no_mark))]
fn set_mark(marks: &mut [bool], n: u32)
    ensures { marks.new ≡ with_mark marks.old n }
{
    if (n as usize) < marks.len() {
        marks[n as usize] = true;
    }
}

/// For each number below `count`, whether it is one of these.
#[tactic(auto, using(crate::proofs::MarksMade::next_mark))]
fn marks_of(alloc: Global, count: usize, numbers: &[u32]) -> Result<Vec<bool>, NoMemory>
    ensures { IfOk result (λ marks. marks.items ≡ marks_of numbers.now count) }
{
    let Ok(mut marks) = Vec::from_elem(alloc, false, count) else {
        return Err(NoMemory);
    };
    for number in numbers {
        set_mark(&mut marks, *number);
    }
    Ok(marks)
}
