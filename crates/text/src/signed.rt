// The number that a word stands for, as a signed number of the machine.
ghost use Rattle.std.specs.Prelude.{◌≡◌};
ghost use Rattle.text.specs.Signed.{signed64};

use crate::Word;

// A word as a signed number of 64 bits, where it fits.
#[tactic(auto, unfolding(crate::specs::Signed::signed64))]
pub fn to_signed_64(word: Word) -> Option<i64>
    ensures { result ≡ signed64 word.negative word.found }
{
    let n = word.found?;
    if word.negative {
        0i64.checked_sub_unsigned(n)
    } else {
        i64::try_from(n).ok()
    }
}
