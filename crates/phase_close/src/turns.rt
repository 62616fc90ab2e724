//! The hands of a protocol's turns end.
ghost use Rattle.std.specs.Prelude.{◌≡◌};
ghost use Rattle.std.specs.List.{AllByRecursion};
ghost use Rattle.jour.specs.Seats.{front, journal};
ghost use Rattle.phase_close.specs.Retired.{IsRetired};

use import_lock::{Hand, Turns};

/// Ends a hand: the turns of its number are its receipts.
fn retire_hand(turns: &mut Turns, hand: Hand)
    requires here { journal hand ≡ journal turns.old }
    ensures same { (journal turns.new ≡ journal turns.old)
        × (front turns.new.1 ≡ front turns.old.1) }
    ensures retired { IsRetired (journal turns.old) (front turns.old.1) hand }
{
    turns.retire(hand);
}

/// Ends each of the hands. Nobody else has one any more, so the turns are all that there are.
pub fn retire_hands(turns: &mut Turns, hands: Vec<Hand>)
    requires here { AllByRecursion (λ hand. journal hand ≡ journal turns.old) hands.items }
    ensures same { (journal turns.new ≡ journal turns.old)
        × (front turns.new.1 ≡ front turns.old.1) }
    ensures retired { AllByRecursion (IsRetired (journal turns.old) (front turns.old.1))
        hands.items }
{
    for hand in hands {
        retire_hand(turns, hand);
    }
}
