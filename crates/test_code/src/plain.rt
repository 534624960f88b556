//! The field and the code by their definitions alone, with no table and no lanes.

/// The product: the sum of y times x to the i over the bits i that are set in x.
pub fn product(x: u8, y: u8) -> u8 {
    let mut sum = 0;
    let mut rest = x;
    let mut multiple = y;
    for _i in 0..u8::BITS {
        if rest % 2 == 1 {
            sum ^= multiple;
        }
        rest /= 2;
        multiple = doubled(multiple);
    }
    sum
}

/// The element times x, less the modulus where x to the 8 comes up.
fn doubled(element: u8) -> u8 {
    if element < 0x80 {
        2 * element
    } else {
        (2 * (element - 0x80)) ^ 0x1d
    }
}

/// The element to the n.
pub fn power(element: u8, n: u32) -> u8 {
    let mut power = 1;
    for _i in 0..n {
        power = product(power, element);
    }
    power
}

/// The coefficients of the generator, the constant one first: the product of x - 2^j for j from 1 to 48.
pub fn generator() -> [u8; 49] {
    let mut coefficients = [0; 49];
    coefficients[0] = 1;
    let mut root = 1;
    for _j in 0..48u32 {
        root = doubled(root);
        let old = coefficients;
        for i in 0..49usize {
            let moved = if i > 0 { old[i - 1] } else { 0 };
            coefficients[i] = moved ^ product(root, old[i]);
        }
    }
    coefficients
}

/// The parity of the chunk with zeros behind it, by long division.
pub fn parity(chunk: &[u8], generator: &[u8; 49]) -> [u8; 48] {
    let mut register = [0; 48];
    for i in 0..207usize {
        let symbol = if i < chunk.len() { chunk[i] } else { 0 };
        let leading = symbol ^ register[0];
        let old = register;
        for j in 0..48usize {
            let moved = if j < 47 { old[j + 1] } else { 0 };
            register[j] = moved ^ product(leading, generator[47 - j]);
        }
    }
    register
}

/// The values of the word at the roots 2, 2 to the 2 and on to 2 to the 48.
pub fn syndromes(word: &[u8; 255]) -> [u8; 48] {
    let mut values = [0; 48];
    let mut root = 1;
    for value in &mut values {
        root = doubled(root);
        for byte in word {
            *value = *byte ^ product(root, *value);
        }
    }
    values
}

/// The equations of the values at these places: in row j the locator of each place to the power j + 1, and behind these
/// the syndrome.
fn equations(word: &[u8; 255], places: &[u8]) -> [[u8; 49]; 48] {
    let mut rows = [[0; 49]; 48];
    let syndromes = syndromes(word);
    for j in 0..48usize {
        for k in 0..places.len().min(48) {
            let locator = power(2, 254 - u32::from(places[k].min(254)));
            rows[j][k] = power(locator, j as u32 + 1);
        }
        rows[j][48] = syndromes[j];
    }
    rows
}

/// Solves for the value of this column: its row has 1 there, and all other rows 0.
fn eliminate(rows: &mut [[u8; 49]; 48], column: usize) {
    if column >= 48 {
        return;
    }
    for row in column..48 {
        if rows[column][column] == 0 {
            rows.swap(column, row);
        }
    }
    let inverse = power(rows[column][column], 254);
    for k in 0..49usize {
        rows[column][k] = product(rows[column][k], inverse);
    }
    let pivot = rows[column];
    for row in 0..48usize {
        let factor = rows[row][column];
        if row != column {
            for k in 0..49usize {
                rows[row][k] ^= product(factor, pivot[k]);
            }
        }
    }
}

/// The code word that agrees with this word outside these places, if there is one.
pub fn solved(word: &[u8; 255], places: &[u8]) -> Option<[u8; 255]> {
    let mut rows = equations(word, places);
    for column in 0..places.len() {
        eliminate(&mut rows, column);
    }
    let mut solved = *word;
    for j in 0..48usize {
        let value = rows[j][48];
        if j < places.len() {
            let place = usize::from(places[j].min(254));
            solved[place] ^= value;
        } else if value != 0 {
            return None;
        }
    }
    Some(solved)
}
