//! What holds of types of values, for every caller.
ghost use Rattle.std.specs.Prelude.{◌≡◌};
ghost use Rattle.std.specs.Bool.{Decides};
ghost use Rattle.wasm_types.specs.contracts.types.PrimitiveTypeInfoPartialEq.TheImpl as type_eq;
ghost use Rattle.wasm_types.specs.declared.types.PrimitiveTypeInfo.{PrimitiveTypeInfo};

/// Two types of values compare equal, by `==`, exactly where they are the same.
pub fn equal_types()
    ensures { (t u : PrimitiveTypeInfo) → Decides (type_eq.ghosts.eq t u) (t ≡ u) }
{}
