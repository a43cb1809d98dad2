// The one number that a call answers.
ghost use Rattle.std.specs.Prelude.{◌≡◌};
ghost use Rattle.refusal.specs.Answers.{refusal_number};
ghost use Rattle.sleetrick.specs.Numbers.{tells};

use refusal::Refusal;

// The number of a refusal, which tells no field and no count.
//
// Kept: a number, since it is the C interface.
pub fn number_of(why: Refusal) -> u64
    ensures { result ≡ tells 0 0 (refusal_number why) }
{
    why.number() as u64
}
