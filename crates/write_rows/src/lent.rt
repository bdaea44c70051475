// A table as the writer is lent it: "takes edition, rows, a pool of bytes that they view, and output".
ghost use Rattle.std.specs.Prelude.{◌≡◌, ◌≤◌, ◌/◌, ◌%◌, eqb, length};
ghost use Rattle.meaning.specs.Memory.{row_width, room_of};
ghost use Rattle.table.specs.Rows.{AheadIs, viewed};
ghost use Rattle.write_rows.specs.Stages.{SoughtAt};

use table::rows::{Ahead, look_ahead, room, whole};

// The rows of a table, and the pool of bytes that they view.
#[derive(Clone, Copy)]
pub struct Table<'a> {
    pub rows: &'a [u32],
    pub pool: &'a [u8],
}

impl<'a> Table<'a> {
    // Answers how many whole rows there are.
    pub fn room(&self) -> usize
        ensures { result ≡ room_of self.now.rows.now }
    {
        room(self.rows.len())
    }

    // Answers whether no number is left over behind the whole rows.
    pub fn whole(&self) -> bool
        ensures { result ≡ eqb (length self.now.rows.now % row_width) 0 }
    {
        whole(self.rows.len())
    }

    // The row at i, if there is one and its bytes are all in the pool.
    pub fn ahead(&self, i: usize) -> Option<Ahead>
        requires { i ≤ room_of self.now.rows.now }
        ensures { AheadIs self.now.pool.now self.now.rows.now i result }
    {
        look_ahead(self.rows, self.pool, i)
    }

    // The row at i, if it is of this kind and level and its bytes are all in the pool.
    pub fn look_for(&self, i: usize, kind: u32, level: u32) -> Option<Ahead>
        requires { i ≤ room_of self.now.rows.now }
        ensures { SoughtAt self.now i kind level result }
    {
        let r = self.ahead(i)?;
        if r.kind != kind {
            return None;
        }
        if r.level != level {
            return None;
        }
        Some(r)
    }

    // The bytes that a row views, all of which are in the pool.
    pub fn view(&self, row: &Ahead) -> &'a [u8]
        requires { (row.now.start ≤ row.now.end) × (row.now.end ≤ length self.now.pool.now) }
        ensures { result.now ≡ viewed self.now.pool.now row.now }
    {
        &self.pool[row.start..row.end]
    }
}
