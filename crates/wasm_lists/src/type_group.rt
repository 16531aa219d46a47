//! Groups of declared types.
ghost use Rattle.std.specs.Prelude.{◌≡◌, ◌++◌, [], ◌∷◌, OnOk};

use std::alloc::{AllocError, Global};
use std::marker::Model;
use wasm_types::TypeInfo;

/// Declared types that may name one another: one, for which no memory is taken, or a list. A contract sees a list.
#[derive(Debug, Drop)]
pub struct TypeGroup {
    first: Option<TypeInfo>,
    types: Vec<TypeInfo>,
}

impl Model for TypeGroup {
    ghost use Rattle.std.specs.Prelude.{List};
    ghost use Rattle.wasm_types.specs.declared.types.TypeInfo.{TypeInfo};
    ghost use Rattle.wasm_lists.specs.Types.{stored_group_types};

    ghost Value = { List TypeInfo };

    ghost view = { λ g. stored_group_types g.first g.types.items };
}

impl TypeGroup {
    /// A type that stands alone.
    pub(crate) fn one(alloc: Global, tpe: TypeInfo) -> TypeGroup
        ensures { result ≡ tpe ∷ [] }
    {
        TypeGroup {
            first: Some(tpe),
            types: Vec::new(alloc),
        }
    }

    /// A group of these types.
    pub(crate) fn many(types: Vec<TypeInfo>) -> TypeGroup
        ensures { result ≡ types.items }
    {
        TypeGroup { first: None, types }
    }

    /// Appends the types of the group.
    pub fn append_to(self, all: &mut Vec<TypeInfo>) -> Result<(), AllocError>
        ensures { OnOk result (all.new.items ≡ all.old.items ++ self) }
    {
        let TypeGroup { first, mut types } = self;
        if let Some(tpe) = first {
            all.push(tpe)?;
        }
        all.append(&mut types)
    }
}
