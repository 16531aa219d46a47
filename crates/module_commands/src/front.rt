//! What the front of an input tells of it.
ghost use Rattle.std.specs.Prelude.{◌≡◌, drop};
ghost use Rattle.module_commands.specs.Front.{is_component, is_text};

use module_options::begins_with;

// What stands behind so many bytes; nothing where there are fewer.
fn behind(bytes: &[u8], count: usize) -> &[u8]
    ensures { result.now ≡ drop count bytes.now }
{
    if count > bytes.len() {
        return &[];
    }
    &bytes[count..]
}

/// Whether the bytes are a component: behind the magic number of a module and a version stands the layer 1.
pub fn is_component(bytes: &[u8]) -> bool
    ensures { result ≡ is_component bytes.now }
{
    let magic = begins_with(bytes, b"\0asm");
    let layer = begins_with(behind(bytes, 6), &[1, 0]);
    magic && layer
}

/// Whether the bytes are the text of a module or of a component.
pub fn is_text(bytes: &[u8]) -> bool
    ensures { result ≡ is_text bytes.now }
{
    let module = begins_with(bytes, b"(module");
    let component = begins_with(bytes, b"(component");
    module || component
}
