// What a call answers, in the words of the card.
ghost use Rattle.rig.specs.Answers.{refusal};
ghost use Rattle.std.specs.Prelude.{◌≡◌};

use card::fault::CardFault;

// The number and the row of a refusal; none where the call is accepted.
pub fn refusal<T: Drop, F: CardFault + Drop>(answer: Result<T, F>) -> Option<(u8, u8)>
    ensures { result ≡ refusal F.CardFault answer }
{
    let fault = answer.err()?;
    Some((fault.number(), fault.row()))
}
