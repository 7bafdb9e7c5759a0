// So many places of one slice, from a place on, over those of another from a place on; what does not fit is left out.
ghost use Rattle.std.specs.Prelude.{◌≡◌, ◌-◌, min};
ghost use Rattle.commons.specs.Filled.{copied};

// How many of n places two slices of these lengths share, one from `at` on, the other from `from` on.
fn shared(len: usize, at: usize, others: usize, from: usize, n: usize) -> usize
    ensures { result ≡ min n (min (others - from) (len - at)) }
{
    let both = others.saturating_sub(from).min(len.saturating_sub(at));
    n.min(both)
}

pub fn copy<T: Copy>(to: &mut [T], at: usize, s: &[T], from: usize, n: usize)
    ensures { (d : T) → to.new ≡ copied d at to.old from s.now n }
{
    let m = shared(to.len(), at, s.len(), from, n);
    if m != 0 {
        // By place and not by `copy_from_slice`: where places are laid back as they were, the compiler leaves this out.
        for (k, x) in s[from..from + m].iter().enumerate() {
            to[at + k] = *x;
        }
    }
}
