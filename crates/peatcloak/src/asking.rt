// What the Rust's queries answer, told in lists of the host's.
ghost use Rattle.std.specs.Prelude.{◌≡◌, ◌&&◌, leb, length};
ghost use Rattle.refusals.specs.Rows.{verdict_number};
ghost use Rattle.layout.specs.Standing.{table_at};
ghost use Rattle.peatcloak.specs.Asking.{reward_on, amount_after, amounts_asked, answers_asked, is_asked, asked_number, amounts_told, answers_told};

use layout::{standing, words};
use table::GameState;

#[unsafe(no_mangle)]
pub extern "C" fn peatcloak_player_reward(
    floats: &[f32],
    numbers: &[u32],
    player_idx: u32,
    out: &mut [f32],
) -> u32
    ensures value { result ≡ verdict_number (reward_on floats.now numbers.now player_idx (length out.old)) }
    ensures out_after { out.new ≡ amount_after (reward_on floats.now numbers.now player_idx (length out.old)) out.old }
{
    if (1 <= out.len()) & standing::stands(floats.len(), numbers) {
        let t = standing::table(floats, numbers);
        match t.player_reward(player_idx as usize) {
            Ok(reward) => {
                out[0] = reward;
                return 0;
            }
            Err(r) => return words::word_of_byte(r.number()),
        }
    }
    19
}

fn amounts_of(t: GameState, idx: usize) -> [f32; 6]
    ensures { result ≡ amounts_asked t idx }
{
    [
        t.current_player_stack(),
        t.current_player_starting_stack(),
        t.current_round_current_player_bet(),
        t.current_round_bet(),
        t.current_round_player_bet(idx),
        t.current_round_min_raise(),
    ]
}

fn answers_of(t: GameState) -> [u32; 7]
    ensures { result ≡ answers_asked t }
{
    [
        words::word_of_flag(t.is_raise_capped()),
        words::word_of(t.num_active_players()),
        words::word_of(t.num_all_in_players()),
        words::word_of_flag(t.is_complete()),
        words::word_of(t.to_act_idx()),
        words::word_of(t.current_round_num_active_players()),
        words::word_of_flag(t.is_sound()),
    ]
}

#[unsafe(no_mangle)]
pub extern "C" fn peatcloak_queries(
    floats: &[f32],
    numbers: &[u32],
    player_idx: u32,
    amounts: &mut [f32],
    answers: &mut [u32],
) -> u32
    ensures value { result ≡ asked_number (is_asked floats.now numbers.now (length amounts.old) (length answers.old)) }
    ensures amounts_after { amounts.new ≡ amounts_told (is_asked floats.now numbers.now (length amounts.old) (length answers.old)) (table_at floats.now numbers.now) player_idx amounts.old }
    ensures answers_after { answers.new ≡ answers_told (is_asked floats.now numbers.now (length amounts.old) (length answers.old)) (table_at floats.now numbers.now) answers.old }
{
    let room = (6 <= amounts.len()) & (7 <= answers.len());
    if room & standing::stands(floats.len(), numbers) {
        let t = standing::table(floats, numbers);
        let told = amounts_of(t, player_idx as usize);
        let said = answers_of(t);
        commons::copying::copy(amounts, 0, &told, 0, 6);
        commons::copying::copy(answers, 0, &said, 0, 7);
        return 0;
    }
    19
}
