//! The numbers of the nodes that are there.

ghost use Rattle.std.specs.Prelude.{◌≡◌, IfOk};
ghost use Rattle.case_derive.specs.Places.{IsNumbered, place_at};

use doc_tree::NoMemory;
use std::alloc::Global;

/// The marks of a list's items, and how many are marked before each.
#[derive(Drop)]
pub struct Places {
    marks: Vec<bool>,
    numbers: Vec<usize>,
    ghost numbered: { IsNumbered marks.items numbers.items },
}

impl Places {
    pub fn of(alloc: Global, marks: Vec<bool>) -> Result<Places, NoMemory>
        ensures { IfOk result (λ p. p.marks.items ≡ marks.items) }
    {
        let mut numbers = Vec::new(alloc);
        let mut number = 0;
        'marks: for mark in &marks {
            numbers.push(number)?;
            if *mark {
                number += 1;
            }
        }
        Ok(Places { marks, numbers })
    }

    /// The number of an item among those that are marked, where it is one of them.
    pub fn at(&self, place: u32) -> Option<u32>
        ensures { result ≡ place_at self.now.marks.items place }
    {
        let place = place as usize;
        if place < self.marks.len() && self.marks[place] {
            Some(self.numbers[place] as u32)
        } else {
            None
        }
    }
}
