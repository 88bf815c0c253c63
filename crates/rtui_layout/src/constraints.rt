//! Lists of constraints.
ghost use Rattle.std.specs.Prelude.{◌≡◌, [], IfOk, IsOk};
ghost use Rattle.std.specs.Cmp.{partial_equiv_from_equiv};
ghost use Rattle.std.specs.Cmp.Lexicographic.{pointwise, lists_equiv};
ghost use Rattle.std.specs.Hash as fed;
ghost use Rattle.std.specs.Hash.{items_Alike};
ghost use Rattle.rtui_layout.specs.contracts.constraint.ConstraintEq.TheImpl.Laws.{
  laws-law as constraint_laws,
};
ghost use Rattle.rtui_layout.specs.contracts.constraint.ConstraintHash.TheImpl.Laws.{
  respects_eq-law as constraint_hashes,
};

use crate::constraint::Constraint;
use std::alloc::{AllocError, Global};
use std::hash::{Hash, Hasher};
use std::marker::Model;

// The constraints of a layout, seen as their list.
#[derive(Debug, Drop)]
pub(crate) struct Constraints {
    items: Vec<Constraint>,
}

impl Model for Constraints {
    ghost use Rattle.std.specs.Prelude.{List};
    ghost use Rattle.rtui_layout.specs.declared.constraint.Constraint.{Constraint};

    ghost Value = { List Constraint };

    ghost view = { λ s. s.items.items };
}

impl Constraints {
    pub(crate) fn new(alloc: Global) -> Self
        ensures { result ≡ [] }
    {
        Constraints {
            items: Vec::new(alloc),
        }
    }

    pub(crate) fn from_slice(alloc: Global, constraints: &[Constraint]) -> Result<Self, AllocError>
        ensures ok { IfOk result (λ s. s ≡ constraints.now) }
        ensures succeeds { constraints.now ≡ [] → IsOk result }
    {
        if constraints.is_empty() {
            return Ok(Constraints::new(alloc));
        }
        let items = Vec::from_slice(alloc, constraints)?;
        Ok(Constraints { items })
    }

    pub(crate) fn as_slice(&self) -> &[Constraint]
        ensures { result.now ≡ self.now }
    {
        self.items.as_slice()
    }

    pub(crate) fn allocator(&self) -> Global {
        *self.items.allocator()
    }
}

impl PartialEq for Constraints {
    ghost eq = { pointwise ⟦<Constraint as PartialEq>⟧.eq };

    ghost laws = { partial_equiv_from_equiv (lists_equiv constraint_laws) };

    fn eq(&self, other: &Self) -> bool {
        self.as_slice() == other.as_slice()
    }
}

impl Eq for Constraints {
    ghost laws = { lists_equiv constraint_laws };
}

impl Hash for Constraints {
    ghost hash_input = { fed.slice ⟦<Constraint as Hash>⟧.hash_input };

    ghost respects_eq = { (items_Alike (record { fed = constraint_hashes })).fed };

    fn hash<H: Hasher>(&self, state: &mut H) {
        self.as_slice().hash(state);
    }
}
