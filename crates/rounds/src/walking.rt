// The walk round the table, on the owing set, the number of seats and the seat alone. The three stay parameters: a struct that holds them to 16 seats would ask
// more than `walk_from`, which is promised for any number.
ghost use Rattle.std.specs.Prelude.{◌≡◌, ◌+◌, ◌%◌, ◌<◌, ◌≤◌};
ghost use Rattle.rounds.specs.Walk.{Ahead, distance, walk_of, reached_from};

// Where a walk ends, and the number of seats passed to.
#[derive(Clone, Copy)]
pub struct Reached {
    pub seat: usize,
    pub passed: usize,
}

// The seat after `at`, round a table of n.
fn next(at: usize, n: usize) -> usize
    requires { at < n }
    ensures { result ≡ (at + 1) % n }
{
    let on = at + 1;
    if on < n { on } else { 0 }
}

// The owing seats of the table as they lie ahead: the set turned by the seat and one. Those up to the seat itself come behind the others; of places from n on
// nothing is said.
fn ahead(owing: u16, n: usize, seat: usize) -> u16
    requires seat_lt_n { seat < n }
    requires n_bound { n ≤ 16 }
    ensures { Ahead owing n seat result }
{
    let word = owing as u32;
    let all = word % (1u32 << n);
    let on = seat + 1;
    let behind = n - on;
    let turned = (all >> on) | (all << behind);
    (turned % 65536) as u16
}

// How many seats on the first that owes is, the start itself as the last; one where none owes.
fn distance_to(owing: u16, n: usize, seat: usize) -> usize
    requires seat_lt_n { seat < n }
    requires n_bound { n ≤ 16 }
    ensures { result ≡ distance owing n seat }
{
    let last = n - 1;
    let first = seats::bits::next(ahead(owing, n, seat), 0);
    if first <= last { first + 1 } else { 1 }
}

// The walk by bits, round a table of up to 16. The next seat is tried first: most often it owes, and a branch that the processor predicts is quicker than the
// bits.
fn walk_bits(owing: u16, n: usize, seat: usize) -> Reached
    requires seat_lt_n { seat < n }
    requires n_bound { n ≤ 16 }
    ensures { result ≡ reached_from owing n seat }
{
    let one = next(seat, n);
    if seats::bits::has(owing, one) {
        let passed = 1usize;
        return Reached { seat: one, passed };
    }
    let passed = distance_to(owing, n, seat);
    let at = seat + passed;
    if at < n {
        return Reached { seat: at, passed };
    }
    Reached {
        seat: at - n,
        passed,
    }
}

// From a seat of the table on to the first that owes; one seat on where none does. Up to 16 seats by bits, more one by one.
fn walk_from(owing: u16, n: usize, seat: usize) -> Reached
    requires { seat < n }
    ensures { result ≡ reached_from owing n seat }
{
    if n <= 16 {
        return walk_bits(owing, n, seat);
    }
    // By hand: a table of more than 16 has no set to ask, and its seats are promised too.
    let mut at = seat;
    let mut passed = 0usize;
    while passed < n {
        at = next(at, n);
        passed += 1;
        if seats::bits::has(owing, at) {
            return Reached { seat: at, passed };
        }
    }
    Reached {
        seat: next(seat, n),
        passed: 1,
    }
}

// The walk of a table of up to 16; of any other it stays where it is.
pub fn walk(owing: u16, n: usize, seat: usize) -> Reached
    ensures { result ≡ walk_of owing n seat }
{
    if (seat < n) & (n <= 16) {
        return walk_from(owing, n, seat);
    }
    Reached { seat, passed: 0 }
}
