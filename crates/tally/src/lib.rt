// The depth report: a tally of answers, one answer more, and the report of a tally.
#![tactic(auto)]

ghost use Rattle.std.specs.Prelude.{◌*◌, ◌≤◌, ◌<◌, ◌≡◌, true, []};
ghost use Rattle.model.specs.Session.{most_height};
ghost use Rattle.tally.specs.Tallied.{half_to_even, mean_tenths, RoundsHalfToEven};
ghost use Rattle.tally.specs.Tallies.{tally_of, is_tally, accepted_by, with_answer, takes, added, added_as, reported};
ghost use Rattle.tally.specs.Tallies.{KnowsTallies, TalliesJoin, ReportsLists};

use model::Refusal;
use session::Session;

// The numbers of a list of answers: the sum of the front heights after accepted calls, the accepted calls, the refused calls,
// the greatest of those heights.
#[repr(C)]
#[derive(Clone, Copy)]
pub struct Tally {
    pub sum: u32,
    pub accepted: u16,
    pub refused: u16,
    pub greatest: u8,
}

// A report: the accepted calls, the refused calls, the mean front height in tenths, the report's own refusal (0 if none), the
// greatest front height. The refusal is a number: the C interface has a byte here.
#[repr(C)]
#[derive(Clone, Copy)]
pub struct Report {
    pub accepted: u16,
    pub refused: u16,
    pub tenths: u16,
    pub refusal: u8,
    pub greatest: u8,
}

// ---- numbers

// x / n, rounded to the nearest, and a half to the even neighbour. The library has no such division.
fn half_to_even(x: u32, n: u32) -> u32
    requires { (x < 0x80000000) × (1 ≤ n) }
    ensures { result ≡ half_to_even x n }
{
    let low = x / n;
    let twice = 2 * (x % n);
    if twice < n {
        return low;
    }
    if n < twice {
        return low + 1;
    }
    if low % 2 == 0 {
        return low;
    }
    low + 1
}

// The mean of the heights of so many accepted calls in tenths, so rounded; 0 where there are none.
fn tenths(sum: u32, accepted: u16) -> u16
    requires { sum ≤ accepted * most_height }
    ensures { result ≡ mean_tenths sum accepted }
{
    if accepted == 0 {
        return 0;
    }
    // It is below 65536: no height is above 32. `From` does not narrow.
    half_to_even(10 * sum, u32::from(accepted)) as u16
}

// How many accepted calls an answer with this refusal is.
fn accepted_by(refusal: u8) -> u16
    ensures { result ≡ accepted_by refusal }
{
    u16::from(refusal == 0)
}

// The height that counts: a refused answer's is not looked at.
fn height_seen(refusal: u8, height: u8) -> u8
    ensures { result ≡ accepted_by refusal * height }
{
    if refusal == 0 { height } else { 0 }
}

impl Tally {
    // The most calls that a tally holds, and the greatest height.
    const CALLS: u32 = 65535;

    const HEIGHT: u8 = Session::SCREENS as u8;

    // The tally of no answers.
    #[tactic(auto, unfolding(crate::specs::Tallies::tally_of, crate::specs::Tallied::tallied))]
    pub fn none() -> Tally
        ensures { result ≡ tally_of [] }
    {
        Tally {
            sum: 0,
            accepted: 0,
            refused: 0,
            greatest: 0,
        }
    }

    // Some list of answers gives this tally. Where nothing was accepted, only 0 passes the last two tests.
    fn is_tally(self) -> bool
        ensures { result ≡ is_tally self }
    {
        let calls = u32::from(self.accepted) + u32::from(self.refused);
        let greatest = u32::from(self.greatest);
        (calls <= Tally::CALLS)
            & (self.greatest <= Tally::HEIGHT)
            & (greatest <= self.sum)
            & (self.sum <= u32::from(self.accepted) * greatest)
    }

    // An answer with this refusal and height is taken.
    #[tactic(auto, unfolding(crate::specs::Tallies::takes))]
    fn takes(self, refusal: u8, height: u8) -> bool
        ensures { result ≡ takes self refusal height }
    {
        let calls = u32::from(self.accepted) + u32::from(self.refused);
        self.is_tally() & ((refusal != 0) | (height <= Tally::HEIGHT)) & (calls < Tally::CALLS)
    }

    // The tally with an answer that is taken.
    fn with_answer(self, refusal: u8, height: u8) -> Tally
        requires { takes self refusal height ≡ true }
        ensures { result ≡ with_answer self refusal height }
    {
        let seen = height_seen(refusal, height);
        let accepted = accepted_by(refusal);
        Tally {
            sum: self.sum + u32::from(seen),
            accepted: self.accepted + accepted,
            refused: self.refused + (1 - accepted),
            greatest: self.greatest.max(seen),
        }
    }

    // Adds the answer of a call, by its refusal and its front height, the bytes of the C interface; 31 where it is not taken.
    #[tactic(auto, unfolding(crate::specs::Tallies::added))]
    pub fn add(self, refusal: u8, height: u8) -> Result<Tally, Refusal>
        ensures step { added_as self result ≡ added self refusal height }
        ensures known { KnowsTallies }
        ensures joined { TalliesJoin }
    {
        if !self.takes(refusal, height) {
            return Err(Refusal::TallyRefused);
        }
        Ok(self.with_answer(refusal, height))
    }

    // The report of a tally.
    #[tactic(auto, unfolding(crate::specs::Tallies::reported))]
    pub fn report(self) -> Report
        ensures numbers { result ≡ reported self }
        ensures known { KnowsTallies }
        ensures listed { ReportsLists }
        ensures nearest { RoundsHalfToEven }
    {
        if !self.is_tally() {
            return Report {
                accepted: 0,
                refused: 0,
                tenths: 0,
                refusal: Refusal::TallyRefused.number(),
                greatest: 0,
            };
        }
        Report {
            accepted: self.accepted,
            refused: self.refused,
            tenths: tenths(self.sum, self.accepted),
            refusal: 0,
            greatest: self.greatest,
        }
    }
}
