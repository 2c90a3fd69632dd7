//! What paths stand for.
ghost use Rattle.std.specs.Prelude.{◌≡◌, IfOk};
ghost use Rattle.pst_ast.specs.ExpressionTree.{PathTree};
ghost use Rattle.pst_ast.specs.ExpressionView.{view_path};
ghost use Rattle.pst_model.specs.ConstraintTree.{SlotTree};
ghost use Rattle.pst_terms.specs.Terms.{Reading};
ghost use Rattle.pst_numbering.specs.Kept.{field_in, kept_at, slot_at, view_kept, view_reading};

use pst_ast::PathNode;
use pst_base::NoMemory;

/// A slot of an action or object, without the handle or the inline constraint that it is seen through.
#[derive(Clone, Copy, Debug, PartialEq, Eq, Hash)]
pub enum OwnSlot {
    /// A field of the action or object.
    Own {
        /// The field's number.
        field: u32,
    },
    /// A field of the object of a reference.
    Object {
        /// The reference's number.
        reference: u32,
        /// The number of the field of the object's type.
        field: u32,
    },
    /// Whether the object of a state reference is its pool's first one.
    First {
        /// The reference's number.
        reference: u32,
    },
    /// The number of the claimed resource instance in its pool.
    ClaimId {
        /// The claim's number.
        claim: u32,
    },
    /// A field of the claimed resource.
    ClaimField {
        /// The claim's number.
        claim: u32,
        /// The number of the field of the resource's type.
        field: u32,
    },
    /// In a state object, the field of the object that it replaces.
    Prev {
        /// The field's number.
        field: u32,
    },
    /// In a state object, whether it is its pool's first one.
    IsFirst,
    /// In a resource object, its number in its pool.
    Id,
    /// The turn of a `repeat`.
    Index {
        /// The number of `repeat` statements round that one.
        level: u32,
    },
    /// A local of a body.
    Local {
        /// The local's number.
        local: u32,
    },
}

/// A slot, as it is kept while its expression is made.
#[derive(Clone, Copy, Debug, PartialEq, Eq, Hash)]
pub struct KeptSlot {
    /// Whether it is one of the action round an inline constraint.
    pub outer: bool,
    /// The number of the handle that it is seen through.
    pub handle: Option<u32>,
    /// The slot itself.
    pub own: OwnSlot,
}

/// What a path stands for, its index apart.
#[derive(Clone, Copy, Debug, PartialEq, Eq)]
pub enum PathReading {
    /// A number.
    Number(i64),
    /// A slot.
    Slot(KeptSlot),
    /// The elements of an array.
    Elements {
        /// The first one.
        first: KeptSlot,
        /// How many there are.
        count: u32,
    },
}

/// Says what paths stand for.
pub trait PathReader {
    /// What a path stands for.
    ghost reads: { Self → PathTree → Reading SlotTree };

    /// What a path stands for.
    fn read(&self, path: &PathNode) -> Result<PathReading, NoMemory>
        ensures { IfOk result (λ r. view_reading r ≡ reads self.now (view_path path.now)) };
}

impl OwnSlot {
    // The number of the field, 0 for a slot that is no field.
    fn field(self) -> u32
        ensures { result ≡ field_in self }
    {
        match self {
            OwnSlot::Own { field } => field,
            OwnSlot::Object { field, .. } => field,
            OwnSlot::ClaimField { field, .. } => field,
            OwnSlot::Prev { field } => field,
            _ => 0,
        }
    }

    // The same slot with another field.
    fn with_field(self, field: u32) -> OwnSlot
        ensures { result ≡ slot_at self field }
    {
        match self {
            OwnSlot::Own { .. } => OwnSlot::Own { field },
            OwnSlot::Object { reference, .. } => OwnSlot::Object { reference, field },
            OwnSlot::ClaimField { claim, .. } => OwnSlot::ClaimField { claim, field },
            OwnSlot::Prev { .. } => OwnSlot::Prev { field },
            other => other,
        }
    }
}

impl KeptSlot {
    /// The number of the field, 0 for a slot that is no field.
    pub fn field(self) -> u32
        ensures { result ≡ field_in self.own }
    {
        self.own.field()
    }

    /// The same slot with another field.
    pub fn with_field(self, field: u32) -> KeptSlot
        ensures { view_kept result ≡ kept_at self field }
    {
        KeptSlot {
            outer: self.outer,
            handle: self.handle,
            own: self.own.with_field(field),
        }
    }
}
