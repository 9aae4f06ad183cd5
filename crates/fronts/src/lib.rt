// Document 02, request 12, "Recordings with flags missing": which screens could be in front after a plain start of which only some
// flag bits are known. Nothing is started: each filling of the others is asked for what its start would answer.
#![tactic(auto)]

ghost use Rattle.std.specs.Prelude.{◌≡◌};
ghost use Rattle.model.specs.Refusals.{refusal as refusal_of, refusal_in, refusal_number, numbered, unless};
ghost use Rattle.fronts.specs.Sets.{size_of};
ghost use Rattle.fronts.specs.Fronts.{word_at, with_front, front_set, fronts_refusal, known_checks, refused_set, fronts_stored, SetExactly, KnowingMore, AnyNoHistory};

use checks::Checked;
use model::Refusal;
use session::Session;
use table::Table;

// A set of screens, bit k for screen k, and how many there are; or the refusal, and zeros. A number beside them: the C interface
// has a byte there.
#[repr(C)]
#[derive(Clone, Copy)]
pub struct FrontSet {
    pub set: u64,
    pub refusal: u8,
    pub count: u8,
}

// ---- fillings

// How many words the seven make.
const WORDS: u32 = 128;

// One of them by its index: each binary digit of that is a flag.
fn word_at(i: u32) -> u32
    ensures { result ≡ word_at i }
{
    let three = i % 2 * flags::NTK + i / 2 % 2 * flags::STP + i / 4 % 2 * flags::MTK;
    let two = i / 8 % 2 * flags::CTP + i / 16 % 2 * flags::RTF;
    three + (two + i / 32 % 2 * flags::CTK + i / 64 % 2 * flags::NOH)
}

// ---- the set

// The set with the screen that a start of b with this word brings to the front, if it brings one.
fn with_front(on: &Checked<'_>, b: u8, set: u64, word: u32) -> u64
    ensures { result ≡ with_front on.now.table.now on.now.session.now b set word }
{
    let answer = calls::start_answer(on, b, word);
    if answer.refusal != 0 {
        return set;
    }
    if answer.tasks == 0 {
        return set;
    }
    set | 1u64 << answer.screen
}

// The screens that the fillings bring to the front: the words of the seven that have the known values.
fn set_of(on: &Checked<'_>, b: u8, mask: u32, value: u32) -> u64
    ensures { result ≡ front_set on.now.table.now on.now.session.now b mask value }
{
    let mut set: u64 = 0;
    for i in 0..WORDS {
        let word = word_at(i);
        if word & mask == value {
            set = with_front(on, b, set, word);
        }
    }
    set
}

// How many screens are in a set: 64 at most, and `From` does not narrow.
fn size_of(set: u64) -> u8
    ensures { result ≡ size_of set }
{
    u64::count_ones(set) as u8
}

// ---- the call

// A start's check 3, then 35: a bit of the mask outside the seven, or a value outside the mask.
fn check_known(table: &Table<'_>, b: u8, mask: u32, value: u32) -> Result<(), Refusal>
    ensures { refusal_in result ≡ refusal_of (known_checks table.now b mask value) }
{
    if b >= table.size() {
        return Err(Refusal::UnknownScreen);
    }
    if flags::has_other_bit(mask) {
        return Err(Refusal::UnknownBits);
    }
    if value & mask != value {
        return Err(Refusal::UnknownBits);
    }
    Ok(())
}

// The set of a start of b of which the bits of the mask are known, with these values.
fn known_set(table: &[u8], s: Session, b: u8, mask: u32, value: u32) -> Result<u64, Refusal>
    ensures { numbered result ≡ unless (fronts_refusal table.now s b mask value) (front_set table.now s b mask value) }
{
    navigator::check(table, s)?;
    check_known(&Table::of(table), b, mask, value)?;
    Ok(set_of(&checks::passed(table, &s), b, mask, value))
}

// Refused: no set.
fn refuse(refusal: Refusal) -> FrontSet
    ensures { result ≡ refused_set (refusal_number refusal) }
{
    FrontSet {
        set: 0,
        refusal: refusal.number(),
        count: 0,
    }
}

// Which screens could be in front after a start of b of which the bits of the mask are known, with these values.
pub fn fronts(table: &[u8], s: Session, b: u8, mask: u32, value: u32) -> FrontSet
    ensures gives { result ≡ fronts_stored table.now s b mask value }
    ensures exactly { result.refusal ≡ 0 → SetExactly table.now s b mask value result.set }
    ensures empty { s.n ≡ 0 → result.set ≡ 0 }
    ensures more { result.refusal ≡ 0 → KnowingMore table.now s b mask value result }
    ensures bit { result.refusal ≡ 0 → AnyNoHistory table.now s b mask value result }
{
    match known_set(table, s, b, mask, value) {
        Ok(set) => FrontSet {
            set: set,
            refusal: 0,
            count: size_of(set),
        },
        Err(refusal) => refuse(refusal),
    }
}
