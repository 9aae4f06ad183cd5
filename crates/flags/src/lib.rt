// The flag word of a start: its seven flags, and whether a bit outside them is set.
#![tactic(auto)]

ghost use Rattle.std.specs.Prelude.{◌≡◌};
ghost use Rattle.model.specs.Flags.{flags_of, has_other_bit};

use model::Flags;

// The seven, in hex as Android publishes them: new task, single top, multiple task, clear top, reorder to front, clear task, no
// history.
pub const NTK: u32 = 0x10000000;

pub const STP: u32 = 0x20000000;

pub const MTK: u32 = 0x08000000;

pub const CTP: u32 = 0x04000000;

pub const RTF: u32 = 0x00020000;

pub const CTK: u32 = 0x00008000;

pub const NOH: u32 = 0x40000000;

// Any of the seven may be set together.
pub const SEVEN: u32 = NTK | STP | MTK | CTP | RTF | CTK | NOH;

// The seven flags of a word.
pub fn read(word: u32) -> Flags
    ensures { result ≡ flags_of word }
{
    Flags {
        ntk: word & NTK != 0,
        stp: word & STP != 0,
        mtk: word & MTK != 0,
        ctp: word & CTP != 0,
        rtf: word & RTF != 0,
        ctk: word & CTK != 0,
        noh: word & NOH != 0,
    }
}

// A bit outside the seven is set.
pub fn has_other_bit(word: u32) -> bool
    ensures { result ≡ has_other_bit word }
{
    word & !SEVEN != 0
}
