// Why a call refuses: one variant for each refusal number, with the offset where the refusal has one.
pub mod text;

ghost use Rattle.std.specs.Prelude.{◌≡◌, ℕ};
ghost use Rattle.records.specs.Numbers.{number_of, offset_of, ToldApart, EqualByNumber, record_number, write_number, lookup_number};
ghost use Rattle.records.specs.declared.refusal.WriteRefusal.TheVariants.{Record};

// What is refused with a number.
pub trait Numbered {
    ghost number: { Self → ℕ };

    fn number(self) -> u8
        ensures { result ≡ number self };
}

// Why a packet, an added entry or a copy is refused: numbers 1 to 18.
#[derive(Clone, Copy, PartialEq, Eq, Debug)]
pub enum Refusal {
    PacketTooShort,
    TooLong,
    Version,
    MessageType,
    Module,
    Segmented,
    UnknownCode,
    PastEnd { offset: usize },
    NoData { offset: usize },
    NoTime { offset: usize },
    NotShared { offset: usize },
    Padding { offset: usize },
    Record { offset: usize },
    OutputFull,
    NoEntries,
    Opening,
    OutputLength,
    MalformedCopy,
}

impl Numbered for Refusal {
    ghost number = { number_of };

    fn number(self) -> u8 {
        match self {
            Refusal::PacketTooShort => 1,
            Refusal::TooLong => 2,
            Refusal::Version => 3,
            Refusal::MessageType => 4,
            Refusal::Module => 5,
            Refusal::Segmented => 6,
            Refusal::UnknownCode => 7,
            Refusal::PastEnd { .. } => 8,
            Refusal::NoData { .. } => 9,
            Refusal::NoTime { .. } => 10,
            Refusal::NotShared { .. } => 11,
            Refusal::Padding { .. } => 12,
            Refusal::Record { .. } => 13,
            Refusal::OutputFull => 14,
            Refusal::NoEntries => 15,
            Refusal::Opening => 16,
            Refusal::OutputLength => 17,
            Refusal::MalformedCopy => 18,
        }
    }
}

impl Refusal {
    // Where the refused bytes begin; 0 for a refusal of the whole.
    pub fn offset(self) -> usize
        ensures offset { result ≡ offset_of self }
        ensures told_apart { ToldApart }
        ensures equal { EqualByNumber ⟦<Refusal as PartialEq>⟧.eq }
    {
        match self {
            Refusal::PastEnd { offset }
            | Refusal::NoData { offset }
            | Refusal::NoTime { offset }
            | Refusal::NotShared { offset }
            | Refusal::Padding { offset }
            | Refusal::Record { offset } => offset,
            _ => 0,
        }
    }
}

// Why a record kind refuses flags and data: numbers 21 to 26.
#[derive(Clone, Copy, PartialEq, Eq, Debug)]
pub enum RecordRefusal {
    Length,
    Identifier,
    PayloadLength,
    Checksum,
    Setting,
    Slot,
}

impl Numbered for RecordRefusal {
    ghost number = { record_number };

    fn number(self) -> u8 {
        match self {
            RecordRefusal::Length => 21,
            RecordRefusal::Identifier => 22,
            RecordRefusal::PayloadLength => 23,
            RecordRefusal::Checksum => 24,
            RecordRefusal::Setting => 25,
            RecordRefusal::Slot => 26,
        }
    }
}

// Why a record was not written: the kind refuses it, or the part is not as long as the canonical data.
#[derive(Clone, Copy, PartialEq, Eq, Debug)]
pub enum WriteRefusal {
    Record(RecordRefusal),
    PartLength,
}

impl From<RecordRefusal> for WriteRefusal {
    ghost from_gives = { λ refusal write. write ≡ Record refusal };

    fn from(refusal: RecordRefusal) -> WriteRefusal {
        Self::Record(refusal)
    }
}

impl Numbered for WriteRefusal {
    ghost number = { write_number };

    fn number(self) -> u8 {
        match self {
            WriteRefusal::Record(refusal) => refusal.number(),
            WriteRefusal::PartLength => 14,
        }
    }
}

// Why a registry refuses: no kind serves the code, or the kind that does refuses.
#[derive(Clone, Copy, PartialEq, Eq, Debug)]
pub enum LookupRefusal<E> {
    UnknownCode,
    Kind(E),
}

impl<E: Numbered> Numbered for LookupRefusal<E> {
    ghost number = { lookup_number E.Numbered.number };

    fn number(self) -> u8 {
        match self {
            LookupRefusal::UnknownCode => 7,
            LookupRefusal::Kind(refusal) => refusal.number(),
        }
    }
}
