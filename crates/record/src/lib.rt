// The encoding record as it is lent (document 01): its widths, limits and columns, the refusals, the answer of the
// operations that write.
#![tactic(auto)]

ghost use Rattle.std.specs.Prelude.{[], ◌∷◌, ◌≡◌};
ghost use Rattle.record.specs.Flat.{node_width, row_width, flat_nodes};
ghost use Rattle.record.specs.Refusals.{why_number, number_of, fault_of, fault_answer};
ghost use Rattle.record.specs.Tree.{forest, empty};

// What an encoding measures. The record itself is two lent slices, nodes and rows.
#[derive(Clone, Copy)]
pub struct Encoding {}

impl Encoding {
    pub const ROW_WIDTH: usize = 11;

    pub const SEQUENCES: usize = 8;

    pub const RANGE_WIDTH: usize = 3;

    // Where a node's ranges begin: after its row count and its window count.
    pub const RANGES: usize = 2;

    pub const NODE_WIDTH: usize = 2 + 3 * Encoding::SEQUENCES;

    pub const MOST_NODES: usize = 4096;

    pub const MOST_ROWS: usize = 65536;

    pub const MOST_LEVELS: usize = 16;

    pub const MOST_NODE_NUMBERS: usize = Encoding::MOST_NODES * Encoding::NODE_WIDTH;

    pub const MOST_ROW_NUMBERS: usize = Encoding::MOST_ROWS * Encoding::ROW_WIDTH;

    // The node of the empty encoding, which has no rows.
    pub fn empty() -> [u32; Encoding::NODE_WIDTH]
        ensures { result ≡ flat_nodes (forest (empty ∷ [])) }
    {
        [0; Encoding::NODE_WIDTH]
    }
}

// The place of each number in a row.
#[derive(Clone, Copy)]
pub struct Column {}

impl Column {
    pub const ID: usize = 0;

    pub const TYPE_ID: usize = 1;

    pub const POOL: usize = 2;

    pub const TEXT_START: usize = 3;

    pub const TEXT_LENGTH: usize = 4;

    pub const WORD_MARK: usize = 5;

    pub const WORD: usize = 6;

    pub const OFFSET_START: usize = 7;

    pub const OFFSET_END: usize = 8;

    pub const SPECIAL: usize = 9;

    pub const ATTENTION: usize = 10;
}

// The numbers of a row, of a word and of a character, and the place of a row in its sequence, each a type of its own: one
// handed over for another, as a word for a row, is an error of the build. All count from 0.
#[derive(Clone, Copy)]
pub struct Row(pub u32);

#[derive(Clone, Copy)]
pub struct Word(pub u32);

#[derive(Clone, Copy)]
pub struct Place(pub u32);

#[derive(Clone, Copy)]
pub struct SequencePlace(pub u32);

// A stretch of rows: its first row, and the row after its last.
#[derive(Clone, Copy)]
pub struct Bounds {
    pub start: u32,
    pub end: u32,
}

// Where an encoding stands: the places of its node and of its rows.
#[derive(Clone, Copy)]
pub struct Spot {
    pub node: usize,
    pub row: usize,
}

// Why a part of a template cannot be read.
#[derive(Clone, Copy)]
pub enum Why {
    MoreThanOneColon,
    BadTypeNumber,
    UnknownSequenceName,
}

impl Why {
    // The number of document 02.
    pub fn number(self) -> u32
        ensures { result ≡ why_number self }
    {
        match self {
            Why::MoreThanOneColon => 19,
            Why::BadTypeNumber => 20,
            Why::UnknownSequenceName => 21,
        }
    }
}

// A part of a template that cannot be read: why, its number among the parts and the place of its first byte in the text, both
// from 0.
#[derive(Clone, Copy)]
pub struct Fault {
    pub why: Why,
    pub part: usize,
    pub place: usize,
}

// Why an operation does not do its work, in the order of the numbers of documents 01 and 02. A part of a template that cannot
// be read is the one that says where.
#[derive(Clone, Copy)]
pub enum Refusal {
    MalformedRecord,
    NoRoom,
    Stride,
    SecondMissing,
    TooShort,
    OffsetTooLarge,
    TemplateTooLong,
    PairLacksAOrB,
    SpecialIdUnknown,
    BWithoutSecond,
    IdsAndTextsDiffer,
    SequenceIdAboveLast,
    TextOutsidePool,
    MalformedTable,
    NotText,
    OffsetPastEnd,
    OffsetInsideCharacter,
    PartUnreadable(Fault),
    TotalTooLarge,
}

impl Refusal {
    // The number of document 01 or 02.
    pub fn number(self) -> u32
        ensures { result ≡ number_of self }
    {
        match self {
            Refusal::MalformedRecord => 1,
            Refusal::NoRoom => 2,
            Refusal::Stride => 3,
            Refusal::SecondMissing => 4,
            Refusal::TooShort => 5,
            Refusal::OffsetTooLarge => 6,
            Refusal::TemplateTooLong => 8,
            Refusal::PairLacksAOrB => 9,
            Refusal::SpecialIdUnknown => 10,
            Refusal::BWithoutSecond => 11,
            Refusal::IdsAndTextsDiffer => 12,
            Refusal::SequenceIdAboveLast => 13,
            Refusal::TextOutsidePool => 14,
            Refusal::MalformedTable => 15,
            Refusal::NotText => 16,
            Refusal::OffsetPastEnd => 17,
            Refusal::OffsetInsideCharacter => 18,
            Refusal::PartUnreadable(fault) => {
                let why = fault.why;
                why.number()
            }
            Refusal::TotalTooLarge => 22,
        }
    }

    // The part at fault, if that is why.
    pub fn fault(self) -> Option<Fault>
        ensures { result ≡ fault_answer (fault_of self) }
    {
        match self {
            Refusal::PartUnreadable(fault) => Some(fault),
            _ => None,
        }
    }
}

// The nodes and rows of a result, which an operation that writes answers if it is not refused.
#[derive(Clone, Copy)]
pub struct Written {
    pub nodes: usize,
    pub rows: usize,
}

// The widths, each with the promise that it is the definition's: what ties the constants to specs/.
pub fn row_width() -> usize
    ensures { result ≡ row_width }
{
    Encoding::ROW_WIDTH
}

pub fn node_width() -> usize
    ensures { result ≡ node_width }
{
    Encoding::NODE_WIDTH
}
