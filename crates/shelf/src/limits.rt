// The limits of a shelf record, and the places that follow from them. They stand here and, for the
// contracts, in specs/Limits.antt.
ghost use Rattle.std.specs.Prelude.{◌≡◌};
ghost use Rattle.shelf.specs.Limits.{type_place, text_place, element_place, name_place, block_length};

pub const MOST_TYPES: u16 = 8;

// In all, and in one type.
pub const MOST_ELEMENTS: u16 = 64;

pub const MOST_IN_TYPE: u8 = 64;

pub const MOST_TEXT: u16 = 32;

// A slot page has one for each type, and one for each element.
pub const MOST_SLOTS: u16 = MOST_TYPES + MOST_ELEMENTS;

pub const GENERATION: u32 = 0;

pub const LOGICAL_IDENTIFIER: u32 = 4;

pub const VENDOR: u32 = 12;

pub const PRODUCT: u32 = 20;

pub const REVISION: u32 = 36;

pub const TYPES: u32 = 40;

const FIRST_TYPE: u32 = 44;

pub const TYPE_SIZE: u16 = 4 + MOST_TEXT;

const FIRST_ELEMENT: u32 = FIRST_TYPE + TYPE_SIZE as u32 * MOST_TYPES as u32;

const ELEMENT_SIZE: u32 = 16;

// The bytes of a configuration: the block up to its first element.
pub const CONFIGURATION: usize = FIRST_ELEMENT as usize;

// All elements, and a name for each slot.
pub const LONGEST_BLOCK: usize = CONFIGURATION
    + ELEMENT_SIZE as usize * MOST_ELEMENTS as usize
    + MOST_TEXT as usize * MOST_SLOTS as usize;

// Four bytes of settings for each element.
pub const LONGEST_WANTED_LIST: usize = 4 * MOST_ELEMENTS as usize;

// A status, control or threshold page: its head, and four bytes for each slot.
pub const LONGEST_SLOT_PAGE: usize = 8 + 4 * MOST_SLOTS as usize;

// Its head, and for each type a header of four bytes and a text.
pub const LONGEST_CONFIGURATION_PAGE: usize = 48 + (4 + MOST_TEXT as usize) * MOST_TYPES as usize;

// Its head, and for each slot a descriptor of four bytes and a name.
pub const LONGEST_DESCRIPTOR_PAGE: usize = 8 + (4 + MOST_TEXT as usize) * MOST_SLOTS as usize;

pub fn type_place(t: u16) -> u32
    ensures { result ≡ type_place t }
{
    FIRST_TYPE + TYPE_SIZE as u32 * t as u32
}

pub fn text_place(t: u16) -> u32
    ensures { result ≡ text_place t }
{
    type_place(t) + 4
}

pub fn element_place(j: u16) -> u32
    ensures { result ≡ element_place j }
{
    FIRST_ELEMENT + ELEMENT_SIZE * j as u32
}

// Where name i of a shelf of n elements stands.
pub fn name_place(n: u16, i: u16) -> u32
    ensures { result ≡ name_place n i }
{
    element_place(n) + MOST_TEXT as u32 * i as u32
}

// A shelf of t types and n elements ends behind its last name.
pub fn block_length(t: u16, n: u16) -> usize
    ensures { result ≡ block_length t n }
{
    (element_place(n) + MOST_TEXT as u32 * (t as u32 + n as u32)) as usize
}
