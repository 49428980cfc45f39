// What the items of a certificate are handed to.
ghost use Rattle.std.specs.Prelude.{◌≡◌, ℕ, List, IsErrOf};

use crate::{Item, NoMemory};

/// Why an item was not taken.
#[derive(Clone, Copy, Debug, PartialEq, Eq)]
pub enum TakeStop {
    /// The taker refuses the item, or its world does.
    Stopped,
    NoMemory,
}

impl From<NoMemory> for TakeStop {
    ghost use Rattle.service_model.specs.declared.taker.TakeStop.TheVariants.{NoMemory};

    ghost from_gives = { λ _ stop. stop ≡ NoMemory };

    fn from(_: NoMemory) -> Self {
        TakeStop::NoMemory
    }
}

/// Takes items one after another. The world is the outside to which it writes: it is handed in at each call, and
/// kept in no field.
pub trait Taker<W> {
    ghost use Rattle.service_model.specs.declared.cert.Item.{Item};
    ghost use Rattle.service_model.specs.Takers.{with_taken, CountsStops};

    /// The taker with its world stands for a list of items.
    ghost stands_for: { Self → W → List Item → Type 0 };

    /// The taker with its world refuses an item. One that tells nothing of it refuses every item.
    ghost refuses: { Self → W → Item → Type 0 };

    /// A later taker with its world keeps what an earlier one had.
    ghost keeps: { Self → W → Self → W → Type 0 };

    /// How often it has stopped.
    ghost stops: { Self → ℕ };

    /// Takes an item behind those that it stands for. After a refusal it stands for the same items.
    fn take(&mut self, world: &mut W, item: &Item) -> Result<(), TakeStop>
        ensures stands { (items : List Item) → stands_for self.old world.old items
            → stands_for self.new world.new (with_taken result items item.now) }
        ensures keeps { keeps self.old world.old self.new world.new }
        ensures stops { CountsStops (stops self.old) (stops self.new) result }
        ensures refuses { IsErrOf result TakeStop.Stopped → stops self.old ≡ 0
            → refuses self.new world.new item.now };

    ghost keeps_itself: { (t : Self) (w : W) → keeps t w t w };

    ghost keeps_on: { (a : Self) (u : W) (b : Self) (v : W) (c : Self) (w : W)
        → keeps a u b v → keeps b v c w → keeps a u c w };
}
