// "A row is five u32 numbers: kind, level, start, length, skip." How many they are is said in this file and nowhere else in the code.
ghost use Rattle.std.specs.Prelude.{◌≡◌, eqb, ◌+◌, ◌*◌, ◌/◌, ◌%◌, ◌≤◌, ◌<◌, length, get_or, set};
ghost use Rattle.meaning.specs.Memory.{row_width, room_of};
ghost use Rattle.laws_steps.specs.Rows.{put};
ghost use Rattle.laws_steps.specs.Hopping.{given_at};
ghost use Rattle.table.specs.Rows.{u32_most, RowIs, AheadIs};

pub const ROW_NUMBERS: usize = 5;

// A row by its numbers but the skip number.
#[derive(Drop)]
pub struct Row {
    pub kind: u32,
    pub level: u32,
    pub start: usize,
    pub length: usize,
}

// A row whose bytes are all in the pool, and where they begin and end there.
#[derive(Drop)]
pub struct Ahead {
    pub kind: u32,
    pub level: u32,
    pub start: usize,
    pub end: usize,
}

// Takes how many numbers are lent. Answers how many whole rows they hold: "room is a fifth of the lent length".
pub fn room(numbers: usize) -> usize
    ensures { result ≡ numbers / row_width }
{
    numbers / ROW_NUMBERS
}

// Takes how many numbers are lent. Answers whether none is left over behind the whole rows.
pub fn whole(numbers: usize) -> bool
    ensures { result ≡ eqb (numbers % row_width) 0 }
{
    numbers % ROW_NUMBERS == 0
}

// Row n of `rows` but its skip number, which stays, where there is room for it; else nothing changes.
pub fn put_row(rows: &mut [u32], n: usize, kind: u32, level: u32, start: usize, length: usize)
    requires { (n ≤ u32_most) × (start ≤ u32_most) × (length ≤ u32_most) }
    ensures { rows.new ≡ put rows.old n kind level start length }
{
    let i = n * ROW_NUMBERS;
    if i + ROW_NUMBERS <= rows.len() {
        rows[i] = kind;
        rows[i + 1] = level;
        rows[i + 2] = start as u32;
        rows[i + 3] = length as u32;
    }
}

// Row i of `rows`.
pub fn row_at(rows: &[u32], i: usize) -> Row
    requires { i < room_of rows.now }
    ensures { RowIs rows.now i result }
{
    let k = i * ROW_NUMBERS;
    Row {
        kind: rows[k],
        level: rows[k + 1],
        start: number_at(rows, k + 2),
        length: number_at(rows, k + 3),
    }
}

// Takes a row's number. Answers its kind.
pub fn kind_at(rows: &[u32], i: usize) -> u32
    requires { i < room_of rows.now }
    ensures { result ≡ get_or rows.now (i * row_width) 0 }
{
    rows[i * ROW_NUMBERS]
}

// Takes a row's number. Answers its level.
pub fn level_at(rows: &[u32], i: usize) -> u32
    requires { i < room_of rows.now }
    ensures { result ≡ get_or rows.now (i * row_width + 1) 0 }
{
    rows[i * ROW_NUMBERS + 1]
}

// Takes a row's number. Answers its skip number.
pub fn skip_at(rows: &[u32], i: usize) -> usize
    requires { i < room_of rows.now }
    ensures { result ≡ given_at rows.now i }
{
    number_at(rows, i * ROW_NUMBERS + 4)
}

// Puts the skip number of row i; nothing else changes.
pub fn put_skip(rows: &mut [u32], i: usize, skip: usize)
    requires { (i < room_of rows.old) × (skip ≤ u32_most) }
    ensures { rows.new ≡ set rows.old (i * row_width + 4) skip }
{
    rows[i * ROW_NUMBERS + 4] = skip as u32;
}

// Takes a place among the lent numbers. Answers the number there.
fn number_at(rows: &[u32], k: usize) -> usize
    requires { k < length rows.now }
    ensures { (result ≡ get_or rows.now k 0) × (result ≤ u32_most) }
{
    rows[k] as usize
}

// The row at i, if there is one and its bytes are all in the pool.
pub fn look_ahead(rows: &[u32], pool: &[u8], i: usize) -> Option<Ahead>
    requires { i ≤ room_of rows.now }
    ensures { AheadIs pool.now rows.now i result }
{
    if room(rows.len()) <= i {
        return None;
    }
    let r = row_at(rows, i);
    let end = r.start + r.length;
    if pool.len() < end {
        return None;
    }
    Some(Ahead {
        kind: r.kind,
        level: r.level,
        start: r.start,
        end: end,
    })
}
