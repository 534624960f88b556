//! The erased places of a word.

ghost use Rattle.std.specs.Prelude.{◌≡◌, ◌<◌, ◌≤◌, ◌↔◌, length, IsOk, OnOk, OnErr, IsErrOf};
ghost use Rattle.rs_erase.specs.Code.{AgreesOutside, AreElements, ArePlaces, HasCodeWord, IsCodeWord, IsOnlyCodeWord};
ghost use Rattle.rs_erase.specs.Equations.{locators_of, word_with, AreLocators};
ghost use Rattle.rs_erase.specs.FromZero.{weighted};

use crate::equations::find_products;
use crate::fault::SolveFault;
use crate::roots::values_at_roots;
use gf_field::Gf;

/// How many bytes of a word are parity, and so how many places can be erased.
const PARITY: usize = 48;

/// Fills the erased places, so that the word is the one code word that agrees with it at all others. What stood at the
/// erased places does not matter. After an error the word is as it was.
/// Example: in 255 bytes `0xff` with a 0 at place 7, `solve(&mut word, &[7])` makes that `0xff`.
pub fn solve(word: &mut [u8; 255], erased: &[u8]) -> Result<(), SolveFault>
    requires { ArePlaces erased.now }

    ensures solved { IsOk result ↔ ((length erased.now ≤ 48) × HasCodeWord erased.now word.old) }
    ensures code_word { OnOk result (IsCodeWord word.new) }
    ensures agrees { OnOk result (AgreesOutside erased.now word.old word.new) }
    ensures only { OnOk result (IsOnlyCodeWord erased.now word.old word.new) }

    ensures too_many { IsErrOf result (SolveFault.TooMany (length erased.now)) ↔ (48 < length erased.now) }
    ensures no_code_word { IsErrOf result SolveFault.NoCodeWord
        ↔ ((length erased.now ≤ 48) × ¬ (HasCodeWord erased.now word.old)) }
    ensures unchanged { OnErr result (word.new ≡ word.old) }
{
    let count = erased.len();
    if count > PARITY {
        return Err(SolveFault::TooMany { count });
    }
    let at_roots = values_at_roots(word);
    let mut locators = [Gf(0); PARITY];
    let mut values = [Gf(0); PARITY];
    write_locators(&mut locators[..count], erased);
    if !find_products(&locators[..count], at_roots, &mut values[..count]) {
        return Err(SolveFault::NoCodeWord);
    }
    divide_by_locators(&mut values[..count], &locators[..count]);
    add_values(word, erased, &values[..count]);
    Ok(())
}

/// Writes the locator of each place: 2 to the power that the place stands for.
pub fn write_locators(locators: &mut [Gf], places: &[u8])
    requires one_each { length locators.old ≡ length places.now }
    requires places { ArePlaces places.now }
    ensures { locators.new ≡ locators_of places.now }
{
    for (i, locator) in locators.iter_mut().enumerate() {
        *locator = Gf::power(254 - u32::from(places[i]));
    }
}

/// Divides each product by its locator.
fn divide_by_locators(products: &mut [Gf], locators: &[Gf])
    requires one_each { length products.old ≡ length locators.now }
    requires elements { AreElements products.old }
    requires locators { AreLocators locators.now }
    ensures products { products.old ≡ weighted locators.now products.new }
    ensures elements { AreElements products.new }
{
    for (i, product) in products.iter_mut().enumerate() {
        *product = product.div(locators[i]);
    }
}

/// Adds each value at its place.
pub fn add_values(word: &mut [u8], places: &[u8], values: &[Gf])
    requires length { length word.old ≡ 255 }
    requires one_each { length values.now ≡ length places.now }
    requires places { ArePlaces places.now }
    ensures { word.new ≡ word_with places.now values.now word.old }
{
    for (i, place) in places.iter().enumerate() {
        let place = usize::from(*place);
        word[place] = Gf(word[place]).add(values[i]).0;
    }
}
