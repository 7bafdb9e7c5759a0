// The order of the builder's refusals, from the first row to the last: the first that holds answers.
ghost use Rattle.std.specs.Prelude.{◌≡◌};
ghost use Rattle.refusals.specs.Rows.{judge};
ghost use Rattle.builder.specs.Build.{told_rows, amount_rows, list_rows, rows_for};

use crate::{GameStateBuilder, checks};
use refusals::{AddedError, GameStateBuilderError, Refusal, refuse_if};
use rounds::Round;

impl GameStateBuilder {
    // 1, 2, 3.
    fn told_fault(self) -> Result<(), Refusal>
        ensures { result ≡ judge (told_rows self) }
    {
        let n = self.stacks_told().len;
        refuse_if(
            self.stacks.is_none(),
            GameStateBuilderError::MissingStacks.into(),
        )?;
        refuse_if(
            self.big_blind.is_none(),
            GameStateBuilderError::MissingBigBlind.into(),
        )?;
        refuse_if(
            !((2 <= n) & (n <= 16)),
            GameStateBuilderError::InvalidPlayerCount.into(),
        )
    }

    // 5, 6, 7, 8, 9.
    fn amounts_fault(self) -> Result<(), Refusal>
        ensures { result ≡ judge (amount_rows self) }
    {
        let stacks = self.stacks_told();
        let big = self.big_blind_told();
        let small = amounts::is_invalid(self.small_blind_or_half());
        let ante = amounts::is_invalid(self.ante_told());
        let stack = amounts::any_invalid(stacks.list, stacks.len);
        let few = amounts::count_above_zero(stacks.list, stacks.len) < 2;
        let starting = self.round_or_starting() == Round::Starting;
        refuse_if(
            (big <= 0.0) | floats::is_nan(big),
            GameStateBuilderError::InvalidBigBlind.into(),
        )?;
        refuse_if(small, GameStateBuilderError::InvalidSmallBlind.into())?;
        refuse_if(ante, GameStateBuilderError::InvalidAnte.into())?;
        refuse_if(stack, GameStateBuilderError::InvalidStack.into())?;
        refuse_if(
            starting & few,
            GameStateBuilderError::InsufficientActivePlayers.into(),
        )
    }

    // 4, 10, 11, 12.
    fn lists_fault(self) -> Result<(), Refusal>
        ensures { result ≡ judge (list_rows self) }
    {
        let n = self.stacks_told().len;
        let dealer = self.dealer_idx.unwrap_or(0);
        let hands = self.hands.is_some_and(|len| len != n);
        let bets = self.player_bet.is_some_and(|bets| bets.len != n);
        let size = checks::is_board_size(self.board_told().len);
        refuse_if(
            n <= dealer,
            GameStateBuilderError::InvalidDealerIndex.into(),
        )?;
        refuse_if(hands, GameStateBuilderError::HandsLengthMismatch.into())?;
        refuse_if(bets, GameStateBuilderError::PlayerBetLengthMismatch.into())?;
        refuse_if(!size, GameStateBuilderError::InvalidBoardSize.into())
    }

    // All of them; the cards come before the last row, 19, which is that the record would not be sound.
    pub fn verdict(self, sound: bool) -> Result<(), Refusal>
        ensures { result ≡ judge (rows_for self sound) }
    {
        let board = self.board_told();
        self.told_fault()?;
        self.amounts_fault()?;
        self.lists_fault()?;
        checks::card_fault(board.list, board.len)?;
        refuse_if(!sound, AddedError::BadRecord.into())
    }
}
