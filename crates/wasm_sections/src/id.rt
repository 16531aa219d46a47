//! Section ids: their bytes, and their place in the order of sections.
ghost use Rattle.std.specs.Prelude.{◌≡◌, ◌≢◌, IfSome, IfNone};
ghost use Rattle.wasm_sections.specs.Id.{id_code, rank_of, id_name};
ghost use Rattle.wasm_sections.specs.declared.id.SectionId.{SectionId};

/// The kinds of sections that a module may have.
#[derive(Clone, Copy, Debug, PartialEq, Eq)]
pub enum SectionId {
    /// A name and bytes of any form; it may stand anywhere, as often as one likes.
    Custom,
    /// The types.
    Type,
    /// The imports.
    Import,
    /// The type of each function.
    Function,
    /// The tables.
    Table,
    /// The memories.
    Memory,
    /// The globals.
    Global,
    /// The exports.
    Export,
    /// The function that is called first.
    Start,
    /// The element segments.
    Element,
    /// The locals and the body of each function.
    Code,
    /// The data segments.
    Data,
    /// How many data segments there are.
    DataCount,
    /// The tags.
    Tag,
}

impl SectionId {
    /// The id that this byte stands for (WebAssembly Core Specification 3.0, Binary Format, Modules, Sections); `None` where
    /// it stands for none.
    pub fn from_byte(b: u8) -> Option<SectionId>
        ensures found { IfSome result (λ id. id_code id ≡ b) }
        ensures none { IfNone result ((id : SectionId) → id_code id ≢ b) }
    {
        match b {
            0 => Some(SectionId::Custom),
            1 => Some(SectionId::Type),
            2 => Some(SectionId::Import),
            3 => Some(SectionId::Function),
            4 => Some(SectionId::Table),
            5 => Some(SectionId::Memory),
            6 => Some(SectionId::Global),
            7 => Some(SectionId::Export),
            8 => Some(SectionId::Start),
            9 => Some(SectionId::Element),
            10 => Some(SectionId::Code),
            11 => Some(SectionId::Data),
            12 => Some(SectionId::DataCount),
            13 => Some(SectionId::Tag),
            _ => None,
        }
    }

    /// The byte that stands for the id.
    pub fn byte(self) -> u8
        ensures { result ≡ id_code self }
    {
        match self {
            SectionId::Custom => 0,
            SectionId::Type => 1,
            SectionId::Import => 2,
            SectionId::Function => 3,
            SectionId::Table => 4,
            SectionId::Memory => 5,
            SectionId::Global => 6,
            SectionId::Export => 7,
            SectionId::Start => 8,
            SectionId::Element => 9,
            SectionId::Code => 10,
            SectionId::Data => 11,
            SectionId::DataCount => 12,
            SectionId::Tag => 13,
        }
    }

    /// The place of such a section in the order of sections, from 1; 0 for a custom section, which may stand anywhere.
    pub fn rank(self) -> u8
        ensures { result ≡ rank_of self }
    {
        match self {
            SectionId::Custom => 0,
            SectionId::Type => 1,
            SectionId::Import => 2,
            SectionId::Function => 3,
            SectionId::Table => 4,
            SectionId::Memory => 5,
            SectionId::Tag => 6,
            SectionId::Global => 7,
            SectionId::Export => 8,
            SectionId::Start => 9,
            SectionId::Element => 10,
            SectionId::DataCount => 11,
            SectionId::Code => 12,
            SectionId::Data => 13,
        }
    }

    /// The id's name, in lower case.
    pub fn name(&self) -> &'static str
        ensures { result.now ≡ id_name self.now }
    {
        match self {
            SectionId::Custom => "custom",
            SectionId::Type => "type",
            SectionId::Import => "import",
            SectionId::Function => "function",
            SectionId::Table => "table",
            SectionId::Memory => "memory",
            SectionId::Global => "global",
            SectionId::Export => "export",
            SectionId::Start => "start",
            SectionId::Element => "element",
            SectionId::Code => "code",
            SectionId::Data => "data",
            SectionId::DataCount => "datacount",
            SectionId::Tag => "tag",
        }
    }
}
