//! Tasks that are to be done, one after another.

ghost use Rattle.std.specs.Prelude.{◌≡◌, [], ◌∷◌, ◌++◌, length, MatchOption, OnOk};

use crate::task::Task;
use std::alloc::{AllocError, Global};
use std::collections::VecDeque;
use std::marker::Model;

/// Tasks in the order in which they are to be done. One alone takes no memory.
#[derive(Drop)]
pub struct Tasks {
    first: Option<Task>,
    more: VecDeque<Task>,
}

impl Model for Tasks {
    ghost use Rattle.std.specs.Prelude.{List};
    ghost use Rattle.vg_tasks.specs.declared.task.Task as declared;
    ghost use Rattle.vg_tasks.specs.Queue.{in_front};

    ghost Value = { List declared.Task };

    ghost view = { λ t. in_front t.first t.more.items };
}

impl Tasks {
    /// No task.
    pub fn new(alloc: Global) -> Tasks
        ensures { result ≡ [] }
    {
        Tasks {
            first: None,
            more: VecDeque::new(alloc),
        }
    }

    /// One task.
    pub fn one(alloc: Global, task: Task) -> Tasks
        ensures { result ≡ task ∷ [] }
    {
        Tasks {
            first: Some(task),
            more: VecDeque::new(alloc),
        }
    }

    /// How many there are.
    pub fn len(&self) -> usize
        ensures { result ≡ length self.now }
    {
        match &self.first {
            Some(_) => 1 + self.more.len(),
            None => self.more.len(),
        }
    }

    /// Adds a task behind the others.
    pub fn push(&mut self, task: Task) -> Result<(), AllocError>
        ensures { OnOk result (self.new ≡ self.old ++ task ∷ []) }
    {
        if self.first.is_none() && self.more.is_empty() {
            self.first = Some(task);
            return Ok(());
        }
        self.more.push_back(task)?;
        Ok(())
    }

    /// Adds a task in front of the others.
    pub fn push_front(&mut self, task: Task) -> Result<(), AllocError>
        ensures { OnOk result (self.new ≡ task ∷ self.old) }
    {
        if let Some(second) = self.first.replace(task) {
            self.more.push_front(second)?;
        }
        Ok(())
    }

    /// Takes the first task away.
    pub fn pop_front(&mut self) -> Option<Task>
        ensures { MatchOption result ((self.old ≡ []) × (self.new ≡ [])) (λ task. self.old ≡ task ∷ self.new) }
    {
        match self.first.take() {
            Some(task) => Some(task),
            None => self.more.pop_front(),
        }
    }

    /// Takes all away.
    pub fn clear(&mut self)
        ensures { self.new ≡ [] }
    {
        self.first = None;
        self.more.clear();
    }
}
