//! Which bytes of a chunk are erased.

ghost use Rattle.std.specs.Prelude.{ℕ, ◌≡◌, ◌+◌, ◌%◌, ◌<◌, ◌≤◌, length, take};
ghost use Rattle.rs_patterns.specs.Positions.{position, erased_positions};
ghost use Rattle.rs_patterns.specs.Marks.{is_marked, HasMarks, IsByteOf};
ghost use Rattle.rs_patterns.specs.Listed.{ListsErased};

// The most bytes of a chunk, and the bytes of parity behind it.
const CHUNK_BYTES: usize = 207;

const PARITY_BYTES: usize = 48;

// Writes the positions in the word of a chunk of its erased bytes to the front, and answers how many there are.
pub(crate) fn write_erased(
    marks: &[bool],
    count: usize,
    k: usize,
    start: usize,
    positions: &mut [u8; 255],
) -> usize
    requires { HasMarks count k start marks.now }
    ensures within_limit { result ≤ 255 }
    ensures erased { take result positions.new ≡ erased_positions count (is_marked marks.now) start k (k + 48) }
{
    let all = k + PARITY_BYTES;
    let mut bytes = [0; 255];
    let mut many = write_first(marks, count, k, start, &mut bytes, positions);
    if all <= count {
        return many;
    }
    if many == 0 {
        return 0;
    }
    // A byte belongs to the fragment of the one so many before it, so each erased one brings another.
    for i in 0..255usize {
        let j = usize::from(bytes[i]) + count;
        if j >= all {
            return many;
        }
        bytes[many] = j as u8;
        positions[many] = position_of(k, j);
        many += 1;
    }
    many
}

// Writes which bytes of a chunk with its parity are erased, of the first ones of all fragments, and their positions, and answers
// how many there are.
fn write_first(
    marks: &[bool],
    count: usize,
    k: usize,
    start: usize,
    bytes: &mut [u8; 255],
    positions: &mut [u8; 255],
) -> usize
    requires { HasMarks count k start marks.now }
    ensures within_limit { result ≤ 255 }
    ensures whole { k + 48 ≤ count → ListsErased count (is_marked marks.now) start k result (k + 48) bytes.new positions.new }
    ensures first { count ≤ k + 48 → ListsErased count (is_marked marks.now) start k result count bytes.new positions.new }
{
    let all = k + PARITY_BYTES;
    let end = if count < all { count } else { all };
    let mut many = 0;
    let mut index = start % count;
    for j in 0..end {
        if !is_marked_at(marks, index) {
            bytes[many] = j as u8;
            positions[many] = position_of(k, j);
            many += 1;
        }
        index = next_index(index, count);
    }
    many
}

/// The index of the fragment that has the next place of the coded chunks.
pub fn next_index(index: usize, count: usize) -> usize
    requires { index < count }
    ensures { (place : ℕ) → index ≡ place % count → result ≡ (place + 1) % count }
{
    if index + 1 == count { 0 } else { index + 1 }
}

// Where a byte of a chunk with its parity stands in the word.
fn position_of(k: usize, j: usize) -> u8
    requires { IsByteOf k j }
    ensures { result ≡ position k j }
{
    if j < k {
        j as u8
    } else {
        (CHUNK_BYTES + (j - k)) as u8
    }
}

// Whether this index has a mark.
fn is_marked_at(marks: &[bool], index: usize) -> bool
    requires { index < length marks.now }
    ensures { result ≡ is_marked marks.now index }
{
    marks[index]
}
