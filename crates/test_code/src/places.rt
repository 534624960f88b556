//! Places of a word.

ghost use Rattle.std.specs.Prelude.{◌↔◌, IsTrue};
ghost use Rattle.rs_erase.specs.Code.{ArePlaces};

/// Whether these are places of a word, each after the one before it.
pub fn are_places(places: &[u8]) -> bool
    ensures { IsTrue result ↔ ArePlaces places.now }
{
    for (i, place) in places.iter().enumerate() {
        if *place == 255 || (i > 0 && places[i - 1] >= *place) {
            return false;
        }
    }
    true
}
