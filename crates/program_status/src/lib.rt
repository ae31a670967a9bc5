// The status with which an installed program ends.
#![tactic(auto)]

ghost use Rattle.std.specs.Prelude.{◌≡◌};
ghost use Rattle.program_status.specs.Statuses.{status_of};

// The status of a run: whether a read or a write failed, and whether something was refused, bad or differs.
#[tactic(auto, unfolding(crate::specs::Statuses::status_of))]
pub fn status(failed: bool, refused: bool) -> u8
    ensures { result ≡ status_of failed refused }
{
    if failed {
        return 2;
    }
    if refused {
        return 1;
    }
    0
}
