// Whether one slice stands in another from a place on.
ghost use Rattle.std.specs.Prelude.{◌≡◌};
ghost use Rattle.commons.specs.Stands.{stands_at};

pub fn stands_at(l: &[u8], at: usize, s: &[u8]) -> bool
    ensures { result ≡ stands_at l.now at s.now }
{
    match l.get(at..) {
        Some(rest) => rest.starts_with(s),
        None => false,
    }
}
