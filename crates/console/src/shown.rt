// What is shown of what stands.
ghost use Rattle.std.specs.Prelude.{◌≡◌};
ghost use Rattle.console.specs.Shown.{amount_of, view_of};

use crate::act::State;
use script::print::Shown;

// An amount as it is shown: whole from 0 to 2^24, or not. The first two tests are what the conversion needs.
pub fn amount_of(x: f32) -> Option<u32>
    ensures { result ≡ amount_of x }
{
    if -1.0 < x && x < 18446744073709551616.0 {
        let n = std::num::truncating_f32_to_u64(x);
        if n <= 16777216 && n as f32 == x {
            return Some(n as u32);
        }
    }
    None
}

#[tactic(auto, unfolding(crate::specs::Shown::view_of))]
pub fn view_of(s: State) -> Option<Shown>
    ensures { result ≡ view_of s }
{
    let t = s.table?;
    let d = t.round_data;
    Some(Shown {
        round: t.round.number(),
        seat: d.to_act_idx,
        pot: amount_of(t.total_pot),
        bet: amount_of(d.bet),
    })
}
