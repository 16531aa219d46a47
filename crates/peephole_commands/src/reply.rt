//! The lines that commands print.

ghost use Rattle.std.specs.Prelude.{◌≢◌, option_map, OnOk, IfErr};
ghost use Rattle.mutate_base.specs.declared.error.Error.TheVariants.{Memory};
ghost use Rattle.peephole_commands.specs.declared.graphs.Refusal.TheVariants.{Refused};
ghost use Rattle.peephole_commands.specs.Commands.{answer_text, block_line, bytes_line, global_line, output_lines, refusal_line, type_line, Prints};
ghost use Rattle.peephole_commands.specs.Starts.{block_range};
ghost use Rattle.peephole_commands.specs.Writing.{output};

use crate::graphs::Refusal;
use crate::writing::Written;
use mutate_base::Error;
use peephole_script::{Fault, write_digits};
use peephole_terms::ResourceRequest;
use std::alloc::Global;
use std::ops::Range;
use wasm_code::Function;
use wasm_types::PrimitiveTypeInfo;

/// The line that `at` prints of the range of the point's block. `Memory` where an allocation was refused.
pub fn block_line(alloc: Global, range: Option<Range<usize>>) -> Result<Vec<u8>, Fault>
    ensures { Prints (block_line (option_map (λ r. block_range r.start r.end) range)) result }
{
    let text = match range {
        Some(range) => format!(in alloc; "block {}..{}\n", range.start, range.end),
        None => format!(in alloc; "no block\n"),
    };
    Ok(text?.into_bytes())
}

// The line that `result` prints of a type.
fn type_line(alloc: Global, ty: PrimitiveTypeInfo) -> Result<Vec<u8>, Fault>
    ensures { Prints (type_line ty) result }
{
    let name = ty.name();
    let text = format!(in alloc; "result {name}\n")?;
    Ok(text.into_bytes())
}

// The line that `write` prints of a body.
fn bytes_line(alloc: Global, sink: &Function) -> Result<Vec<u8>, Fault>
    ensures { Prints (bytes_line sink.now) result }
{
    let digits = write_digits(alloc, sink.bytes())?;
    let Some(length) = digits.len().checked_add(7) else {
        return Err(Fault::Memory);
    };
    let mut line = Vec::with_capacity(alloc, length)?;
    line.extend_from_slice(b"bytes ")?;
    line.extend_from_slice(digits.as_slice())?;
    line.push(b'\n')?;
    Ok(line)
}

// The line that `write` prints of a requested global.
fn global_line(alloc: Global, request: &ResourceRequest) -> Result<Vec<u8>, Fault>
    ensures { Prints (global_line request.now) result }
{
    match request {
        ResourceRequest::Global { tpe, .. } => {
            let name = tpe.name();
            let text = format!(in alloc; "global {name}\n")?;
            Ok(text.into_bytes())
        }
    }
}

// The lines that `write` prints of a body, and of the globals that it asks for.
fn output_lines(
    alloc: Global,
    sink: &Function,
    requests: &[ResourceRequest],
) -> Result<Vec<u8>, Fault>
    ensures { Prints (output_lines (output sink.now requests.now)) result }
{
    let mut lines = bytes_line(alloc, sink)?;
    for request in requests {
        let line = global_line(alloc, request)?;
        lines.extend_from_slice(line.as_slice())?;
    }
    Ok(lines)
}

// The line of a call that refused for another cause than memory.
fn refused_line(alloc: Global, error: Error) -> Result<Vec<u8>, Fault>
    ensures line { Prints (refusal_line (Refused error)) result }
    ensures other { OnOk result (error ≢ Memory) }
{
    match error {
        Error::Memory => Err(Fault::Memory),
        _ => {
            let name = error.name();
            let text = format!(in alloc; "refused {name}\n")?;
            Ok(text.into_bytes())
        }
    }
}

/// The line that a command prints where it has no answer, but for want of memory. `Memory` where an allocation was refused.
pub fn refusal_line(alloc: Global, refusal: Refusal) -> Result<Vec<u8>, Fault>
    ensures line { Prints (refusal_line refusal) result }
    ensures other { OnOk result (refusal ≢ Refused Memory) }
{
    match refusal {
        Refusal::NoGraph => {
            let text = format!(in alloc; "no graph\n")?;
            Ok(text.into_bytes())
        }
        Refusal::Refused(error) => refused_line(alloc, error),
    }
}

/// The line that `result` prints. `Memory` where an allocation was refused.
pub fn told_line(alloc: Global, told: Result<PrimitiveTypeInfo, Refusal>) -> Result<Vec<u8>, Fault>
    ensures line { Prints (answer_text type_line told) result }
    ensures other { IfErr told (λ r. OnOk result (r ≢ Refused Memory)) }
{
    match told {
        Ok(ty) => type_line(alloc, ty),
        Err(refusal) => refusal_line(alloc, refusal),
    }
}

/// The lines that `write` prints. `Memory` where an allocation was refused.
pub fn written_lines(alloc: Global, written: Result<Written, Refusal>) -> Result<Vec<u8>, Fault>
    ensures lines { Prints
        (answer_text (λ w. output_lines (output w.body w.requests.items)) written)
        result }
    ensures other { IfErr written (λ r. OnOk result (r ≢ Refused Memory)) }
{
    match written {
        Ok(written) => output_lines(alloc, &written.body, written.requests.as_slice()),
        Err(refusal) => refusal_line(alloc, refusal),
    }
}
