//! What written instructions need from outside the function.

use wasm_types::PrimitiveTypeInfo;

/// What written instructions need from outside the function.
#[derive(Clone, Debug, Drop)]
pub enum ResourceRequest {
    /// A new global.
    Global {
        /// The type of its value.
        tpe: PrimitiveTypeInfo,
        /// Whether it can be set.
        mutable: bool,
        /// Whether threads share it.
        shared: bool,
    },
}
