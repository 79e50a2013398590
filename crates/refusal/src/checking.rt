ghost use Rattle.std.specs.Prelude.{◌≡◌};
ghost use Rattle.refusal.specs.Judging.{check};

// Refuses with the fault unless the test holds.
pub fn check<F: Drop>(holds: bool, fault: F) -> Result<(), F>
    ensures { result ≡ check holds fault }
{
    if holds { Ok(()) } else { Err(fault) }
}
