// Document 01's numbers: 0 where a call did what was asked, and where it was turned away the number of the row of "Turned away" that says why. Each
// kind of refusal knows its row, and the number of any answer follows from it.
#![tactic(auto)]

ghost use Rattle.std.specs.Prelude.{◌≡◌, ℕ};
ghost use Rattle.numbers.specs.Numbers.{answer_number};

// Why a call was turned away: a row of the table "Turned away".
pub trait TurnedAway {
    ghost number: { Self → ℕ };

    fn number(self) -> u8
        ensures { result ≡ number self };
}

// Document 01's number of an answer: 0 where nothing is turned away.
pub fn number_of<T: Drop, E: TurnedAway>(answer: Result<T, E>) -> u8
    ensures { result ≡ answer_number E.number answer }
{
    match answer {
        Ok(_) => 0,
        Err(why) => why.number(),
    }
}
