//! The sink into which a body is written.
ghost use Rattle.std.specs.Prelude.{◌≡◌, ◌++◌, ◌≤◌, List, [], ℕ, length, take, OnOk, OnErr};
ghost use Rattle.wasm_code.specs.Code.{code};

use crate::fault::SinkError;
use crate::operator::Instr;
use crate::writing::put_code;
use std::alloc::Global;
use std::marker::Model;

/// The bytes of a function as they are written.
#[derive(Drop)]
pub struct Function {
    bytes: Vec<u8>,
}

impl Model for Function {
    ghost Value = { List ℕ };

    ghost view = { λ s. s.bytes.items };
}

impl Function {
    /// A sink that holds no bytes. Growth takes its memory from `alloc`.
    pub fn new(alloc: Global) -> Function
        ensures { result ≡ [] }
    {
        Function {
            bytes: Vec::new(alloc),
        }
    }

    /// Appends the bytes. `SinkError::Memory` where no memory was left: the sink is then as it was.
    pub fn raw(&mut self, bytes: &[u8]) -> Result<(), SinkError>
        ensures ok { OnOk result (self.new ≡ self.old ++ bytes.now) }
        ensures err { OnErr result (self.new ≡ self.old) }
    {
        self.bytes.extend_from_slice(bytes)?;
        Ok(())
    }

    /// Appends the code of the instruction: the opcode of its row and its immediate, with shortest numbers and no index
    /// for memory 0 (WebAssembly Core Specification 3.0, Binary Format, Values, Integers, and Binary Format,
    /// Instructions).
    /// `SinkError::Memory` where no memory was left: the sink is then as it was.
    pub fn instruction(&mut self, i: &Instr) -> Result<(), SinkError>
        ensures ok { OnOk result (self.new ≡ self.old ++ code i.now) }
        ensures err { OnErr result (self.new ≡ self.old) }
    {
        let written = self.len();
        if put_code(&mut self.bytes, i).is_err() {
            self.bytes.truncate(written);
            return Err(SinkError::Memory);
        }
        Ok(())
    }

    /// What has been written.
    pub fn bytes(&self) -> &[u8]
        ensures { result.now ≡ self.now }
    {
        &self.bytes
    }

    /// How many bytes have been written.
    pub fn len(&self) -> usize
        ensures { result ≡ length self.now }
    {
        self.bytes.len()
    }

    /// Keeps the first `n` bytes alone. There have to be as many.
    pub fn truncate(&mut self, n: usize)
        requires { n ≤ length self.old }
        ensures { self.new ≡ take n self.old }
    {
        self.bytes.truncate(n);
    }
}
