// What the parts of a function became.
ghost use Rattle.std.specs.Prelude.{◌≡◌, ◌≤◌, ◌<◌, ℕ, length, IfNone, IfSome, OnOk};
ghost use Rattle.blic_apply.specs.PartTable.{Enters, HasBecome, IsEmpty, IsNew, IsWidened, mark_at};

use blic_basic::NoMem;
use blic_store::Ref;
use std::alloc::Global;
use std::marker::Model;
#[cfg(test)]
use std::test::Fail;
use std::vec::Vec;

/// After this round the rounds begin anew.
const LAST: u32 = 4294967295;

/// What a part became, and in which round.
#[derive(Clone, Copy)]
pub struct Mark {
    pub round: u32,
    pub answer: Ref,
}

/// What the parts of a function became: a mark by the part's number. A mark of an earlier round says
/// nothing, so that all parts are taken out at once.
#[derive(Drop)]
pub struct PartTable {
    marks: Vec<Mark>,
    round: u32,
}

impl Model for PartTable {
    ghost use Rattle.blic_apply.specs.PartTable.{IsMarked, Table};

    ghost Value = { Table };

    ghost view = { λ t. record { marks = t.marks.items; round = t.round } };

    ghost invariant = { λ t. IsMarked t.marks.items t.round };
}

impl PartTable {
    /// No parts.
    pub fn new(alloc: Global) -> PartTable
        ensures { IsEmpty result }
    {
        PartTable {
            marks: Vec::new(alloc),
            round: 1,
        }
    }

    /// Takes out all parts, and has room for the marks of refs below `refs`.
    pub fn begin(&mut self, refs: usize) -> Result<(), NoMem>
        ensures { OnOk result (IsEmpty self.new) }
    {
        if self.round == LAST {
            unmark(&mut self.marks);
            self.round = 0;
        }
        self.round += 1;
        widen(&mut self.marks, refs)
    }

    /// What the part became, if it was entered.
    pub fn get(&self, part: Ref) -> Option<Ref>
        ensures some { IfSome result (HasBecome self.now part) }
        ensures none { IfNone result (IsNew self.now part) }
    {
        let number = part.number() as usize;
        if number >= self.marks.len() {
            return None;
        }
        let mark = self.marks[number];
        if mark.round == self.round {
            return Some(mark.answer);
        }
        None
    }

    /// Enters a part and what it became.
    pub fn enter(&mut self, part: Ref, answer: Ref) -> Result<(), NoMem>
        ensures { OnOk result (Enters self.old self.new part answer) }
    {
        let number = part.number() as usize;
        widen(&mut self.marks, number + 1)?;
        self.marks[number] = Mark {
            round: self.round,
            answer,
        };
        Ok(())
    }
}

// Has at least n marks; those that there were stay, and the others are of no round.
fn widen(marks: &mut Vec<Mark>, n: usize) -> Result<(), NoMem>
    ensures room { OnOk result (n ≤ length marks.new.items) }
    ensures same { IsWidened marks.old.items marks.new.items }
{
    if marks.len() >= n {
        return Ok(());
    }
    let none = Mark {
        round: 0,
        answer: Ref::FALSE,
    };
    match marks.resize(n, none) {
        Ok(()) => Ok(()),
        Err(_) => Err(NoMem),
    }
}

// Lets all marks be of no round.
fn unmark(marks: &mut [Mark])
    ensures { (r : ℕ) → (mark_at marks.new r).round ≡ 0 }
{
    for mark in marks.iter_mut() {
        mark.round = 0;
    }
}

#[test]
fn a_part_of_the_last_round_is_new_in_the_first(rt: HostRuntime) -> Result<(), Fail> {
    let mut table = PartTable::new(rt.alloc());
    table.enter(Ref::TRUE, Ref::FALSE)?;
    assert_eq!(rt; table.get(Ref::TRUE), Some(Ref::FALSE));
    table.round = LAST;
    assert_eq!(rt; table.get(Ref::TRUE), None);
    table.enter(Ref::FALSE, Ref::TRUE)?;
    table.begin(2)?;
    assert_eq!(rt; table.round, 1);
    assert_eq!(rt; table.get(Ref::TRUE), None);
    assert_eq!(rt; table.get(Ref::FALSE), None);
    table.enter(Ref::FALSE, Ref::TRUE)?;
    assert_eq!(rt; table.get(Ref::FALSE), Some(Ref::TRUE));
    Ok(())
}
