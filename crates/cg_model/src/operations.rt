//! Lists of operations.
ghost use Rattle.std.specs.Prelude.{◌≡◌, ◌++◌, [], ◌∷◌, IfOk, OnOk, OnErr};

use crate::operation::Op;
use cg_cgroup::memory::NoMemory;
use std::alloc::Global;
use std::marker::Model;

/// Operations of a user, one after another.
#[derive(Debug, Drop)]
pub struct Operations {
    items: Vec<Op>,
}

impl Model for Operations {
    ghost use Rattle.std.specs.Prelude.{List};
    ghost use Rattle.cg_model.specs.declared.operation.Op.{Op};

    ghost Value = { List Op };

    ghost view = { λ o. o.items.items };
}

impl PartialEq for Operations {
    ghost use Rattle.std.specs.Cmp.Lexicographic.{pointwise, lists_per};
    ghost use Rattle.cg_model.specs.contracts.operation.OpPartialEq.TheImpl.Laws.{laws-law};

    ghost eq = { pointwise ⟦<Op as PartialEq>⟧.eq };

    ghost laws = { lists_per laws-law };

    fn eq(&self, other: &Operations) -> bool {
        self.items == other.items
    }
}

impl Operations {
    /// No operation.
    pub fn new(alloc: Global) -> Operations
        ensures { result ≡ [] }
    {
        Operations {
            items: Vec::new(alloc),
        }
    }

    /// One operation. Fails where memory is wanted.
    pub fn only(alloc: Global, op: Op) -> Result<Operations, NoMemory>
        ensures { IfOk result (λ operations. operations ≡ op ∷ []) }
    {
        let mut operations = Operations::new(alloc);
        operations.push(op)?;
        Ok(operations)
    }

    /// Adds an operation after the others. Fails where memory is wanted.
    pub fn push(&mut self, op: Op) -> Result<(), NoMemory>
        ensures ok { OnOk result (self.new ≡ self.old ++ op ∷ []) }
        ensures err { OnErr result (self.new ≡ self.old) }
    {
        self.items.push(op)?;
        Ok(())
    }

    /// Adds operations after the others. Fails where memory is wanted.
    pub fn append(&mut self, other: Operations) -> Result<(), NoMemory>
        ensures ok { OnOk result (self.new ≡ self.old ++ other) }
        ensures err { OnErr result (self.new ≡ self.old) }
    {
        let Operations { mut items } = other;
        self.items.append(&mut items)?;
        Ok(())
    }

    /// The operations, in order.
    pub fn as_slice(&self) -> &[Op]
        ensures { result.now ≡ self.now }
    {
        self.items.as_slice()
    }
}
