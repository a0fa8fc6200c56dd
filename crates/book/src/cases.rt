//! Worked cases of the book.

ghost use Rattle.std.specs.Prelude.{◌≡◌};
ghost use Rattle.book.specs.Cases.{CasesHold, worked_words};

/// The words that the worked cases come to, each by the name that `specs/Cases.antt` gives it.
#[derive(Clone, Copy)]
pub struct WorkedCases {
    pub add_code: u32,
    pub add_bar: u32,
    pub least_quotient: u32,
    pub least_remainder: u32,
    pub odd_quotient: u32,
    pub odd_remainder: u32,
    pub zero_quotient: u32,
    pub zero_remainder: u32,
    pub link_first: u32,
    pub interrupt_epc: u32,
    pub interrupt_sr: u32,
    pub fetch_epc: u32,
    pub fetch_code: u32,
    pub load_code: u32,
    pub load_bar: u32,
}

/// Cases of the book, worked out.
pub fn worked_cases() -> WorkedCases
    ensures words { result ≡ worked_words }
    ensures cases { CasesHold result }
{
    WorkedCases {
        add_code: 12,
        add_bar: 0x8000_0000,
        least_quotient: 0x8000_0000,
        least_remainder: 0,
        odd_quotient: 0xFFFF_FFFD,
        odd_remainder: 0xFFFF_FFFF,
        zero_quotient: 0xFFFF_FFFF,
        zero_remainder: 7,
        link_first: 0x8000_0104,
        interrupt_epc: 0x8000_0200,
        interrupt_sr: 0x0000_0404,
        fetch_epc: 0x8000_3FFC,
        fetch_code: 6,
        load_code: 4,
        load_bar: 0x8000_0002,
    }
}
