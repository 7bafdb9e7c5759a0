// A choice between numbers, so that the folds have no branches.
ghost use Rattle.std.specs.Prelude.{◌≡◌, cond, ◌≤◌};

pub fn only(t: bool, x: u32) -> u32
    ensures { (result ≡ cond t x 0) × (result ≤ x) }
{
    if t { x } else { 0 }
}
