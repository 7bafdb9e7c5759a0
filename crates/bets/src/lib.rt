// The arithmetic of one bet, on plain amounts: a the amount, p the seat's round bet, k its stack, b the bet, m the smallest raise. What the seat faces
// stands in one struct, so that a rule that looks at more adds a field there.
#![tactic(auto)]

ghost use Rattle.std.specs.Prelude.{◌≡◌, true};
ghost use Rattle.bets.specs.Bet.{invalid_size, slack_of, doesnt_call_self, payment_of, is_all_in, raise_by, doesnt_call, too_small, sized, bet_size, size_for};

use refusals::{GameStateError, Refusal};

// What the seat to act faces.
#[derive(Clone, Copy)]
pub struct Facing {
    pub round_bet: f32,
    pub stack: f32,
    pub bet: f32,
    pub min_raise: f32,
}

fn invalid_size(a: f32) -> bool
    ensures { result ≡ invalid_size a }
{
    floats::is_sign_negative(a) | floats::is_nan(a)
}

// e of document 01.
fn slack(a: f32, b: f32) -> f32
    ensures { result ≡ slack_of a b }
{
    floats::tol(floats::max(floats::max(floats::abs(a), floats::abs(b)), 1.0))
}

fn doesnt_call_self(a: f32, e: f32, p: f32) -> bool
    ensures { result ≡ doesnt_call_self a e p }
{
    p > a + e
}

fn payment(a: f32, p: f32, k: f32) -> f32
    ensures { result ≡ payment_of a p k }
{
    floats::min(k, a - p)
}

// Whether the bet is all in: its own test, which is not that of an empty stack.
fn is_all_in(x: f32, k: f32) -> bool
    ensures { result ≡ is_all_in x k }
{
    floats::abs(x - k) < floats::tol(floats::max(floats::abs(k), 1.0))
}

fn raise_by(y: f32, b: f32) -> f32
    ensures { result ≡ raise_by y b }
{
    floats::max(y - b, 0.0)
}

fn doesnt_call(y: f32, e: f32, b: f32, all_in: bool) -> bool
    ensures { result ≡ doesnt_call y e b all_in }
{
    (y + e < b) & !all_in
}

fn too_small(r: f32, e: f32, m: f32, all_in: bool) -> bool
    ensures { result ≡ too_small r e m all_in }
{
    (r > e) & (!all_in & (r + e < m))
}

// The payment x against the bet and the smallest raise.
fn size_of(x: f32, e: f32, f: Facing) -> Result<f32, Refusal>
    ensures { result ≡ sized x e f }
{
    let y = f.round_bet + x;
    let all_in = is_all_in(x, f.stack);
    if doesnt_call(y, e, f.bet, all_in) {
        return Err(GameStateError::BetSizeDoesntCall.into());
    }
    if too_small(raise_by(y, f.bet), e, f.min_raise, all_in) {
        return Err(GameStateError::RaiseSizeTooSmall.into());
    }
    Ok(x)
}

pub fn validate_bet_amount(a: f32, f: Facing) -> Result<f32, Refusal>
    ensures { result ≡ bet_size a f }
{
    if invalid_size(a) {
        return Err(GameStateError::BetInvalidSize.into());
    }
    let e = slack(a, f.bet);
    if doesnt_call_self(a, e, f.round_bet) {
        return Err(GameStateError::BetSizeDoesntCallSelf.into());
    }
    size_of(payment(a, f.round_bet, f.stack), e, f)
}

// Never refused for its size.
pub fn validate_forced_bet_amount(a: f32, f: Facing) -> Result<f32, Refusal>
    ensures { result ≡ size_for true a f }
{
    Ok(floats::min(f.stack, a))
}

pub fn validate(is_forced: bool, a: f32, f: Facing) -> Result<f32, Refusal>
    ensures { result ≡ size_for is_forced a f }
{
    if is_forced {
        validate_forced_bet_amount(a, f)
    } else {
        validate_bet_amount(a, f)
    }
}
