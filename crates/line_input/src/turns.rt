// How long a reader goes on. A proved loop has to end, and nothing says that an input does: a program counts turns down, from
// a number that no run uses up.
ghost use Rattle.std.specs.Prelude.{◌≡◌, ◌≤◌, ◌-◌};
ghost use Rattle.line_input.specs.Turns.{left};

// How many turns are left after one whose block has k bytes: none where the input has ended. The second clause follows from
// the first, and is stated so that a loop's proof finds it.
#[tactic(auto, unfolding(crate::specs::Turns::left))]
pub fn turns_left(turns: u64, k: usize) -> u64
    ensures value { result ≡ left turns k }
    ensures fewer { result ≤ turns - 1 }
{
    if k == 0 {
        return 0;
    }
    turns.saturating_sub(1)
}
