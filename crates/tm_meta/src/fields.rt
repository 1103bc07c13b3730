//! The parts of the metadata word, after vscode-textmate's encoded token attributes.
ghost use Rattle.std.specs.Prelude.{◌≡◌, ◌≤◌};
ghost use Rattle.tm_meta.specs.Fields.{balanced_bit, packed_fields, fields_of};

/// The parts of a metadata word.
#[derive(Clone, Copy, Debug, PartialEq, Eq)]
pub struct Fields {
    /// The number of the language, from bit 0.
    pub language: u8,
    /// The token type, from bit 8: 0 other, 1 comment, 2 string, 3 regex.
    pub token_type: u8,
    /// Whether brackets are matched here, at bit 10.
    pub balanced: bool,
    /// The font style, from bit 11: 1 italic, 2 bold, 4 underline, 8 strikethrough, and their sums.
    pub font: u8,
    /// The number of the foreground, from bit 15.
    pub foreground: u16,
    /// The number of the background, from bit 24.
    pub background: u8,
}

const TOKEN_TYPE: u32 = 0x100;

const BALANCED: u32 = 0x400;

const FONT: u32 = 0x800;

const FOREGROUND: u32 = 0x8000;

const BACKGROUND: u32 = 0x100_0000;

fn balanced_bit(balanced: bool) -> u32
    ensures { result ≡ balanced_bit balanced }
{
    if balanced { 1 } else { 0 }
}

/// The metadata word of its parts.
pub fn pack(fields: Fields) -> u32
    requires token_type { fields.token_type ≤ 3 }
    requires font { fields.font ≤ 15 }
    requires foreground { fields.foreground ≤ 511 }
    ensures is { result ≡ packed_fields fields }
    ensures unpacked { fields_of result ≡ fields }
{
    u32::from(fields.language)
        + TOKEN_TYPE * u32::from(fields.token_type)
        + BALANCED * balanced_bit(fields.balanced)
        + FONT * u32::from(fields.font)
        + FOREGROUND * u32::from(fields.foreground)
        + BACKGROUND * u32::from(fields.background)
}

/// The parts of a metadata word.
pub fn unpack(meta: u32) -> Fields
    ensures is { result ≡ fields_of meta }
    ensures packed { packed_fields result ≡ meta }
{
    Fields {
        language: (meta % 0x100) as u8,
        token_type: (meta / TOKEN_TYPE % 4) as u8,
        balanced: meta / BALANCED % 2 == 1,
        font: (meta / FONT % 16) as u8,
        foreground: (meta / FOREGROUND % 512) as u16,
        background: (meta / BACKGROUND) as u8,
    }
}

fn crosses<T: Send + Sync>() {}

/// The parts of a word may cross and be shared between threads.
pub fn fields_cross() {
    crosses::<Fields>();
}
