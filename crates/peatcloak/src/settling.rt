// The pot paid out into the host's lists, and each seat's reward told.
ghost use Rattle.std.specs.Prelude.{◌≡◌, ◌≤◌, length};
ghost use Rattle.layout.specs.Outcome.{floats_after, numbers_after};
ghost use Rattle.peatcloak.specs.Calls.{Stands};
ghost use Rattle.peatcloak.specs.Settling.{ranks_at, settle_on, settled_at, rewards_told, rewards_after, words_after};

use crate::outcomes;
use layout::standing;

fn ranks_of(ranks: &[u16]) -> [u16; 16]
    ensures { result ≡ ranks_at ranks.now }
{
    let mut list = [0u16; 16];
    commons::copying::copy(&mut list, 0, ranks, 0, 16);
    list
}

fn lay_rewards(rewards: &mut [i32], list: [i32; 16])
    requires { 16 ≤ length rewards.old }
    ensures { rewards.new ≡ rewards_told list rewards.old }
{
    commons::copying::copy(rewards, 0, &list, 0, 16);
}

#[unsafe(no_mangle)]
pub extern "C" fn peatcloak_settle(
    floats: &mut [f32],
    numbers: &mut [u32],
    ranks: &[u16],
    rewards: &mut [i32],
) -> u32
    ensures value { result ≡ (settle_on floats.old numbers.old ranks.now (length rewards.old)).number }
    ensures floats_after { floats.new ≡ floats_after (length numbers.old) (settle_on floats.old numbers.old ranks.now (length rewards.old)) floats.old }
    ensures numbers_after { numbers.new ≡ numbers_after (length floats.old) (settle_on floats.old numbers.old ranks.now (length rewards.old)) numbers.old }
    ensures rewards_after { rewards.new ≡ rewards_after (settle_on floats.old numbers.old ranks.now (length rewards.old)) (settled_at floats.old numbers.old ranks.now).rewards rewards.old }
    ensures stands { Stands result floats.new numbers.new (settle_on floats.old numbers.old ranks.now (length rewards.old)) }
    ensures words { rewards.new ≡ words_after (settle_on floats.old numbers.old ranks.now (length rewards.old)) (settled_at floats.old numbers.old ranks.now).rewards rewards.old }
{
    let room = (16 <= ranks.len()) & (16 <= rewards.len());
    if room & standing::stands(floats.len(), numbers) {
        let t = standing::table(floats, numbers);
        let list = ranks_of(ranks);
        let s = settlement::settle(t, list);
        let answer = s.answer;
        let table = s.table;
        let told = s.rewards;
        let number = outcomes::lay_verdict(floats, numbers, answer, table);
        if number == 0 {
            lay_rewards(rewards, told);
            return 0;
        }
        return number;
    }
    19
}
