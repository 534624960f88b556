//! The values at erased places from the syndromes, by removing one place after another.
//!
//! What is found is each value times its locator: the syndromes are the sums of these products times the locators to the
//! power 0, 1 and on. Each syndrome added to the one before it times a locator makes a list of syndromes, one shorter, in
//! which the place with that locator has no part, and the product at any other place is multiplied by the sum of both
//! locators. So first all places are removed, and then the products are found from the last place back to the first.

ghost use Rattle.std.specs.Prelude.{◌≡◌, ◌<◌, ◌≤◌, ◌+◌, ◌-◌, ℕ, List, length, take, drop, slice_index, IsTrue, ◌↔◌};
ghost use Rattle.std.specs.List.{All};
ghost use Rattle.rs_erase.specs.Code.{AreElements};
ghost use Rattle.rs_erase.specs.Equations.{power_sum, remaining_values, remaining_syndromes, IsNoneOf, AreLocators};
ghost use Rattle.rs_erase.specs.FromZero.{syndromes_without, AreFirstSyndromes, SolvesFromZero};
ghost use Rattle.rs_erase.specs.Rows.{listed};

use crate::row::Row;
use gf_field::Gf;

/// Finds the products at the places with these locators from which the syndromes come, if there are any.
pub fn find_products(locators: &[Gf], syndromes: Row, products: &mut [Gf]) -> bool
    requires distinct { AreLocators locators.now }
    requires one_each { length products.old ≡ length locators.now }
    requires enough { length locators.now ≤ 48 }
    ensures found { IsTrue result → SolvesFromZero locators.now products.new (listed syndromes) }
    ensures complete { (vs : List ℕ) → SolvesFromZero locators.now vs (listed syndromes) → IsTrue result }
{
    let rest = remove_places(locators, syndromes, products);
    let bytes = rest.to_bytes();
    if !are_zero(&bytes[..48 - locators.len()]) {
        return false;
    }
    solve_from_last(locators, products);
    true
}

/// Whether each element is 0.
pub fn are_zero(elements: &[u8]) -> bool
    ensures { IsTrue result ↔ All (λ element. element ≡ 0) elements.now }
{
    elements.iter().all(|element| *element == 0)
}

/// Removes one place after another from the syndromes, and writes down the first of them before each place.
pub fn remove_places(locators: &[Gf], syndromes: Row, firsts: &mut [Gf]) -> Row
    requires one_each { length firsts.old ≡ length locators.now }
    requires enough { length locators.now ≤ 48 }
    ensures rest { take (48 - length locators.now) (listed result) ≡ syndromes_without locators.now (listed syndromes) }
    ensures firsts { AreFirstSyndromes locators.now (listed syndromes) firsts.new }
    ensures elements { AreElements firsts.new }
{
    let mut rest = syndromes;
    for (i, first) in firsts.iter_mut().enumerate() {
        *first = Gf(rest.front());
        rest = without_place(rest, locators[i]);
    }
    rest
}

/// The syndromes without the part of the place with this locator, of which there is one fewer.
fn without_place(syndromes: Row, locator: Gf) -> Row
    ensures { (left : ℕ) → left < 48 → take left (listed result)
        ≡ remaining_syndromes locator (take (left + 1) (listed syndromes)) }
{
    syndromes.from_second().plus_multiple(locator.0, syndromes)
}

/// Makes the products of the first syndromes, from the last place back to the first, where no syndrome is left.
fn solve_from_last(locators: &[Gf], products: &mut [Gf])
    requires distinct { AreLocators locators.now }
    requires one_each { length products.old ≡ length locators.now }
    requires elements { AreElements products.old }
    ensures { (s : List ℕ) → length locators.now ≤ length s → AreFirstSyndromes locators.now s products.old
        → All (λ syndrome. syndrome ≡ 0) (syndromes_without locators.now s)
        → SolvesFromZero locators.now products.new s }
{
    for i in 0..locators.len() {
        let k = locators.len() - 1 - i;
        solve_first(&locators[k..], &mut products[k..]);
    }
}

/// Makes the first product of the first syndrome, and divides the others, which are those without the first place.
fn solve_first(locators: &[Gf], products: &mut [Gf])
    requires at_least_one { 0 < length locators.now }
    requires distinct { AreLocators locators.now }
    requires one_each { length products.old ≡ length locators.now }
    requires elements { AreElements products.old }
    ensures solved { (s : List ℕ) → length locators.now ≤ length s → slice_index products.old 0 ≡ slice_index s 0
        → SolvesFromZero (drop 1 locators.now) (drop 1 products.old) (remaining_syndromes (slice_index locators.now 0) s)
        → SolvesFromZero locators.now products.new s }
    ensures elements { AreElements products.new }
{
    let Some((locator, others)) = locators.split_first() else {
        return;
    };
    let Some((product, rest)) = products.split_first_mut() else {
        return;
    };
    let sum = divide(rest, others, *locator);
    *product = product.add(sum);
}

/// Divides each product by the sum of its locator and this one, and gives the sum of the quotients.
fn divide(products: &mut [Gf], locators: &[Gf], locator: Gf) -> Gf
    requires one_each { length products.old ≡ length locators.now }
    requires elements { AreElements products.old }
    requires distinct { IsNoneOf locator locators.now }
    ensures product { remaining_values locator locators.now products.new ≡ products.old }
    ensures elements { AreElements products.new }
    ensures sum { result ≡ power_sum 0 locators.now products.new }
{
    let mut sum = Gf(0);
    for (i, product) in products.iter_mut().enumerate() {
        let quotient = product.div(locators[i].add(locator));
        *product = quotient;
        sum = sum.add(quotient);
    }
    sum
}
