// The two texts: their kinds, the refusals by name, the head of a text, and the words that reader and writer share.
#![tactic(auto)]

ghost use Rattle.std.specs.Prelude.{◌≡◌};
ghost use Rattle.text.specs.Refusals.{number_of};

// The refusals: document 01's ten, then those that document 02's orders add.
#[derive(Clone, Copy)]
pub enum Refusal {
    Overlong,
    ShortList,
    Malformed,
    NoSuchLine,
    Crossed,
    Unsorted,
    TooWide,
    NoSpare,
    TooMany,
    ShortAnswer,
    DifferentLines,
    NotAllowed,
    OtherEnd,
}

// The refusal of a text, and the line that it is about, counted from 1; 0 where no line is meant.
#[derive(Clone, Copy)]
pub struct Refused {
    pub refusal: Refusal,
    pub line: usize,
}

// The refusal of one of several texts: its number, counted from 1, and the line; 0 where no one of them, or no line, is meant.
#[derive(Clone, Copy)]
pub struct TextRefused {
    pub refusal: Refusal,
    pub text: u8,
    pub line: usize,
}

impl Refused {
    // The refusal, where the text is one of several.
    pub fn in_text(self, text: u8) -> TextRefused
        ensures { (result.refusal ≡ self.refusal) × (result.text ≡ text) × (result.line ≡ self.line) }
    {
        TextRefused {
            refusal: self.refusal,
            text,
            line: self.line,
        }
    }
}

// The two texts: a cascade of mct gates, and a circuit.
#[derive(Clone, Copy)]
pub enum Kind {
    Cascade,
    Circuit,
}

// What the head of a text says: how many lines there are, and which of them nobody may borrow. Line a is kept if bit a of `kept` is 1, so `kept` is
// 0 exactly if the text has no keep line.
#[derive(Clone, Copy)]
pub struct Head {
    pub lines: u8,
    pub kept: u32,
}

// The words of the two texts, each with the bracket before it and the space after it.
pub const LINES: [u8; 7] = *b"(lines ";

pub const KEEP: [u8; 6] = *b"(keep ";

pub const MCT: [u8; 6] = *b"(mct (";

pub const NOT: [u8; 5] = *b"(not ";

pub const CN: [u8; 4] = *b"(cn ";

pub const V: [u8; 3] = *b"(v ";

pub const VP: [u8; 4] = *b"(vp ";

// The number of a refusal in document 01's table.
impl From<Refusal> for u8 {
    ghost from_gives = { λ r n. n ≡ number_of r };

    fn from(r: Refusal) -> u8 {
        match r {
            Refusal::Overlong => 1,
            Refusal::ShortList => 2,
            Refusal::Malformed => 3,
            Refusal::NoSuchLine => 4,
            Refusal::Crossed => 5,
            Refusal::Unsorted => 6,
            Refusal::TooWide => 7,
            Refusal::NoSpare => 8,
            Refusal::TooMany => 9,
            Refusal::ShortAnswer => 10,
            Refusal::DifferentLines => 11,
            Refusal::NotAllowed => 12,
            Refusal::OtherEnd => 13,
        }
    }
}
