// What a payment makes of all that it moves, on plain amounts and sets, worked out here alone. A round keeps a stake; who pays at a table has a stack, a
// hand bet, the pot and the three sets besides. The walk that follows is `walking`'s.
ghost use Rattle.std.specs.Prelude.{◌≡◌, cond};
ghost use Rattle.rounds.specs.Paying.{is_raise, up_if, is_full, staked, owing_after, pay_of};

// The payer's round bet, the bet and the smallest raise, and how many bets, raises and forced bets there were.
#[derive(Clone, Copy)]
pub struct Stake {
    pub round_bet: f32,
    pub bet: f32,
    pub min_raise: f32,
    pub total: u8,
    pub raises: u8,
    pub forced: u8,
}

// The seat that pays, and what a payment moves beside its stake.
#[derive(Clone, Copy)]
pub struct Payer {
    pub stake: Stake,
    pub stack: f32,
    pub hand_bet: f32,
    pub pot: f32,
    pub active: u16,
    pub all_in: u16,
    pub owing: u16,
    pub seat: usize,
}

pub fn is_raise(forced: bool, b: f32, y: f32) -> bool
    ensures { result ≡ is_raise forced b y }
{
    !forced & (y > b)
}

// A counter up by one where the payment raises it; a full one stays.
pub fn up_if(raised: bool, count: u8) -> u8
    ensures { result ≡ up_if raised count }
{
    if raised & (count < 255) {
        return count + 1;
    }
    count
}

fn either(rose: bool, active: u16, owed: u16) -> u16
    ensures { result ≡ cond rose active owed }
{
    if rose { active } else { owed }
}

// Who owes after seat i paid; out: it has nothing left.
fn owing_after(rose: bool, forced: bool, out: bool, owed: u16, active: u16, i: usize) -> u16
    ensures { result ≡ owing_after rose forced out owed active i }
{
    let owe = either(rose, active, owed);
    seats::bits::without_if(out, seats::bits::without_if(!forced, owe, i), i)
}

impl Stake {
    // Whether a counter that x more would raise is 255.
    pub fn is_full(self, x: f32, is_forced: bool) -> bool
        ensures { result ≡ is_full self x is_forced }
    {
        let raised = is_raise(is_forced, self.bet, self.round_bet + x);
        (self.total == 255) | ((raised & (self.raises == 255)) | (is_forced & (self.forced == 255)))
    }

    // x more is put in.
    pub fn put_in(self, x: f32, is_forced: bool) -> Stake
        ensures { result ≡ staked self x is_forced }
    {
        let y = self.round_bet + x;
        let b = floats::max(self.bet, y);
        Stake {
            round_bet: y,
            bet: b,
            min_raise: floats::max(self.min_raise, b - self.bet),
            total: up_if(true, self.total),
            raises: up_if(is_raise(is_forced, self.bet, y), self.raises),
            forced: up_if(is_forced, self.forced),
        }
    }
}

impl Payer {
    // Pays x.
    pub fn pay(self, x: f32, is_forced: bool) -> Payer
        ensures { result ≡ pay_of self x is_forced }
    {
        let i = self.seat;
        let old = self.stake;
        let stake = old.put_in(x, is_forced);
        let stack = self.stack - x;
        let out = floats::is_near_zero(stack);
        let rose = old.bet < stake.bet;
        let owing = owing_after(rose, is_forced, out, self.owing, self.active, i);
        Payer {
            stake,
            stack,
            hand_bet: self.hand_bet + x,
            pot: self.pot + x,
            active: seats::bits::without_if(out, self.active, i),
            all_in: seats::bits::with_if(out, self.all_in, i),
            owing,
            seat: i,
        }
    }
}
