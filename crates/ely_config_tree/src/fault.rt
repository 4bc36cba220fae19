//! A fault with its place.

ghost use Rattle.std.specs.Prelude.{◌≡◌, IfOk};
ghost use Rattle.ely_config_tree.specs.Faults.{here, under};
ghost use Rattle.ely_config_tree.specs.declared.step.Step.TheVariants.{Member, Index};

use crate::step::{FaultKind, Step};
use ely_base::{Bytes, NoMemory};
use std::alloc::Global;
use std::marker::Model;

/// What is wrong, and where: the steps from the faulty value up to the root.
#[derive(Debug, Drop)]
pub struct TreeFault {
    list: Vec<Step>,
    what: FaultKind,
}

impl Model for TreeFault {
    ghost use Rattle.ely_config_tree.specs.Faults.{Fault};

    ghost Value = { Fault };

    ghost view = { λ f. record { steps = f.list.items; kind = f.what } };
}

impl TreeFault {
    /// A fault of the value itself. It takes no memory.
    pub(crate) fn here(alloc: Global, kind: FaultKind) -> TreeFault
        ensures { result ≡ here kind }
    {
        TreeFault {
            list: Vec::new(alloc),
            what: kind,
        }
    }

    /// The fault as it is seen from the object whose member has it.
    pub(crate) fn under_member(mut self, alloc: Global, name: &str) -> Result<TreeFault, NoMemory>
        ensures { IfOk result (λ fault. fault ≡ under (Member name.now) self) }
    {
        let step = Step::Member(Bytes::copy_of(alloc, name.as_bytes())?);
        self.list.push(step)?;
        Ok(self)
    }

    /// The fault as it is seen from the array whose item has it.
    pub(crate) fn under_index(mut self, index: u64) -> Result<TreeFault, NoMemory>
        ensures { IfOk result (λ fault. fault ≡ under (Index index) self) }
    {
        self.list.push(Step::Index(index))?;
        Ok(self)
    }

    /// The steps from the faulty value up to the root.
    pub fn steps(&self) -> &[Step]
        ensures { result.now ≡ self.now.steps }
    {
        self.list.as_slice()
    }

    /// What is wrong with the value.
    pub fn kind(&self) -> FaultKind
        ensures { result ≡ self.now.kind }
    {
        self.what
    }
}
