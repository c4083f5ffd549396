//! What is left of each row's limit at the last point that was tested.
ghost use Rattle.std.specs.Prelude.{◌≡◌, ℕ, ℤ, ◌<◌, ◌≤◌, ◌^◌, ◌+◌, ◌*◌, ◌↔◌, length, map, replicate, unsigned_abs, ◌==◌, if◌then◌else◌, IsTrue, OnOk, IfOk, [], pos, ◌+ℤ◌, ◌-ℤ◌, ◌*ℤ◌, slice_index_or, slice_set};
ghost use Rattle.std.specs.List.{All, sum_by};
ghost use Rattle.row_kit.specs.Point.{IsLawful};
ghost use Rattle.row_rooms.specs.Rooms.{IsRoomsOf, AreColumns, column_at, cells_at, cell_counted, broken_by, room_at, IsTurned, entries_in};

use row_kit::{Entry, List, Program, Row, lies_in};
use std::alloc::{AllocError, Global};

/// What an entry counts in the row of this number, in 12 bytes.
#[derive(Clone, Copy)]
pub struct Cell {
    pub row: u32,
    pub fixed: i32,
    pub per: i32,
}

/// What is left of each row's limit at a point, and how many rows have less than nothing left, so that the point breaks them. For
/// each slot a column has the cells of the rows that name it.
#[derive(Drop)]
pub struct RowRooms {
    pub columns: Vec<List<Cell>>,
    pub point: Vec<u8>,
    pub rooms: Vec<i128>,
    pub broken: u32,
}

impl RowRooms {
    /// The rooms of a program's rows where no slot is started. It costs the entries of the rows, and takes 12 bytes for each entry and
    /// 16 for each row.
    pub fn new(alloc: Global, program: &Program) -> Result<RowRooms, AllocError>
        ensures { IfOk result (IsRoomsOf program.now) }
    {
        let columns = columns_of(alloc, program)?;
        let rooms = limits(alloc, program.rows.as_slice())?;
        let broken = broken_count(rooms.as_slice());
        Ok(RowRooms {
            columns,
            point: vec![in alloc; 0u8; program.root.len()]?,
            rooms,
            broken,
        })
    }

    /// Whether a point is lawful. Where it lies in the root, the rooms are those at this point from then on. It costs the slots, and
    /// for each slot that has another value here than at the last point that did, the rows that name it.
    pub fn moves_to(&mut self, program: &Program, point: &[u8]) -> bool
        requires { IsRoomsOf program.now self.old }
        ensures rooms { IsRoomsOf program.now self.new }
        ensures lawful { IsTrue result ↔ IsLawful program.now point.now }
    {
        if !lies_in(program.root.as_slice(), point) {
            return false;
        }
        for slot in 0..point.len() {
            self.turn(slot, point[slot]);
        }
        self.broken == 0
    }

    // Gives a slot of the point a value.
    fn turn(&mut self, slot: usize, value: u8)
        requires columns { slot < length self.old.columns.items }
        requires point { slot < length self.old.point.items }
        requires named { All (λ cell. cell.row < length self.old.rooms.items)
            (column_at self.old.columns.items slot) }
        requires small { All (λ room. unsigned_abs room ≤ 2 ^ 64) self.old.rooms.items }
        requires few { length self.old.rooms.items < 2 ^ 32 }
        requires broken { self.old.broken ≡ sum_by broken_by self.old.rooms.items }
        ensures columns { self.new.columns ≡ self.old.columns }
        ensures point { self.new.point.items ≡ slice_set self.old.point.items slot value }
        ensures rooms { IsTurned (column_at self.old.columns.items slot)
            (slice_index_or self.old.point.items slot 0) value
            self.old.rooms.items self.new.rooms.items }
        ensures broken { self.new.broken ≡ sum_by broken_by self.new.rooms.items }
    {
        let former = self.point[slot];
        if former != value {
            let column = self.columns[slot].as_slice();
            let rooms = self.rooms.as_mut_slice();
            self.broken = change(column, former, value, rooms, self.broken);
            self.point[slot] = value;
        }
    }
}

/// Changes what is left for the rows of a column, whose slot had one value and gets another, and answers how many rows are broken.
fn change(cells: &[Cell], former: u8, value: u8, rooms: &mut [i128], broken: u32) -> u32
    requires named { All (λ cell. cell.row < length rooms.old) cells.now }
    requires small { All (λ room. unsigned_abs room ≤ 2 ^ 64) rooms.old }
    requires few { length rooms.old < 2 ^ 32 }
    requires broken { broken ≡ sum_by broken_by rooms.old }
    ensures rooms { IsTurned cells.now former value rooms.old rooms.new }
    ensures broken { result ≡ sum_by broken_by rooms.new }
{
    let mut count = broken;
    for cell in cells {
        count = change_one(cell, former, value, rooms, count);
    }
    count
}

/// As `change`, for one cell.
fn change_one(cell: &Cell, former: u8, value: u8, rooms: &mut [i128], broken: u32) -> u32
    requires named { cell.now.row < length rooms.old }
    requires small { unsigned_abs (room_at rooms.old cell.now.row) ≤ 2 ^ 120 }
    requires few { length rooms.old < 2 ^ 32 }
    requires broken { broken ≡ sum_by broken_by rooms.old }
    ensures rooms { rooms.new ≡ slice_set rooms.old cell.now.row (room_at rooms.old cell.now.row
        +ℤ cell_counted cell.now former -ℤ cell_counted cell.now value) }
    ensures small { (most : ℕ) → All (λ room. unsigned_abs room ≤ most) rooms.old
        → All (λ room. unsigned_abs room ≤ most + 2 ^ 41) rooms.new }
    ensures broken { result ≡ sum_by broken_by rooms.new }
{
    let row = cell.row as usize;
    let room = rooms[row];
    let left = left_after(cell, former, value, room);
    rooms[row] = left;
    broken - broken_by(room) + broken_by(left)
}

/// What is left for the row of a cell, whose slot had one value and gets another.
fn left_after(cell: &Cell, former: u8, value: u8, room: i128) -> i128
    requires { unsigned_abs room ≤ 2 ^ 120 }
    ensures left { result ≡ room +ℤ cell_counted cell.now former -ℤ cell_counted cell.now value }
    ensures small { unsigned_abs result ≤ unsigned_abs room + 2 ^ 41 }
{
    room + counted(cell, former) - counted(cell, value)
}

/// What a cell counts at a value.
fn counted(cell: &Cell, value: u8) -> i128
    ensures value { result ≡ cell_counted cell.now value }
    ensures small { unsigned_abs result ≤ 2 ^ 40 }
{
    if value == 0 {
        0
    } else {
        i128::from(cell.fixed) + times(cell.per, value)
    }
}

/// What a part for each unit of a value comes to.
fn times(per: i32, value: u8) -> i128
    ensures value { result ≡ per *ℤ pos value }
    ensures small { unsigned_abs result ≤ unsigned_abs per * value }
{
    i128::from(per) * i128::from(value)
}

/// 1 where less than nothing is left, and 0 else.
fn broken_by(room: i128) -> u32
    ensures { result ≡ broken_by room }
{
    if room < 0 { 1 } else { 0 }
}

/// How many rows have less than nothing left.
fn broken_count(rooms: &[i128]) -> u32
    requires { length rooms.now < 2 ^ 32 }
    ensures { result ≡ sum_by broken_by rooms.now }
{
    let mut count = 0u32;
    for room in rooms {
        count += broken_by(*room);
    }
    count
}

/// The limits of rows.
fn limits(alloc: Global, rows: &[Row]) -> Result<Vec<i128>, AllocError>
    ensures { IfOk result (λ limits. limits.items ≡ map (λ row. row.limit) rows.now) }
{
    let mut limits = Vec::with_capacity(alloc, rows.len())?;
    for row in rows {
        limits.push(row.limit)?;
    }
    Ok(limits)
}

/// For each slot of a program the cells of the rows that name it.
fn columns_of(alloc: Global, program: &Program) -> Result<Vec<List<Cell>>, AllocError>
    ensures length { IfOk result (λ columns. length columns.items ≡ length program.now.root) }
    ensures columns { IfOk result (λ columns. AreColumns program.now.rows columns.items) }
{
    let counts = cell_counts(alloc, program)?;
    let mut columns = empty_columns(alloc, counts.as_slice())?;
    for number in 0..program.rows.len() {
        let row = program.rows.get(number);
        put_row(&mut columns, number as u32, row.entries.as_slice())?;
    }
    Ok(columns)
}

/// How many cells the column of each slot of a program is to have. Memory alone hangs on it.
fn cell_counts(alloc: Global, program: &Program) -> Result<Vec<usize>, AllocError>
    ensures { IfOk result (λ counts. length counts.items ≡ length program.now.root) }
{
    let mut counts = vec![in alloc; 0usize; program.root.len()]?;
    for row in program.rows.as_slice() {
        count_cells(counts.as_mut_slice(), row.entries.as_slice());
    }
    Ok(counts)
}

/// Counts the entries of a row at their slots.
fn count_cells(counts: &mut [usize], entries: &[Entry])
    requires { All (λ e. e.slot < length counts.old) entries.now }
{
    for entry in entries {
        let slot = entry.slot as usize;
        counts[slot] = counts[slot].saturating_add(1);
    }
}

/// As many empty columns as counts, each with memory for so many cells.
fn empty_columns(alloc: Global, counts: &[usize]) -> Result<Vec<List<Cell>>, AllocError>
    ensures { IfOk result (λ columns. columns.items ≡ replicate (length counts.now) []) }
{
    let mut columns = Vec::with_capacity(alloc, counts.len())?;
    for count in counts {
        let cells = Vec::with_capacity(alloc, *count)?;
        columns.push(List::from_vec(cells))?;
    }
    Ok(columns)
}

/// Puts the entries of a row into the columns of their slots.
fn put_row(columns: &mut Vec<List<Cell>>, number: u32, entries: &[Entry]) -> Result<(), AllocError>
    requires named { All (λ e. e.slot < length columns.old.items) entries.now }
    requires fixed { All (λ e. unsigned_abs e.fixed ≤ 10000000) entries.now }
    requires per { All (λ e. unsigned_abs e.per ≤ 10000000) entries.now }
    ensures length { length columns.new.items ≡ length columns.old.items }
    ensures counts { OnOk result ((slot row value : ℕ) → slot < length columns.old.items
        → cells_at (column_at columns.new.items slot) row value
        ≡ cells_at (column_at columns.old.items slot) row value +ℤ entries_in number entries.now
        row slot value) }
    ensures within { OnOk result ((most : ℕ) → number < most
        → All (All (λ cell. cell.row < most)) columns.old.items
        → All (All (λ cell. cell.row < most)) columns.new.items) }
{
    for entry in entries {
        columns[entry.slot as usize].push(cell_of(number, entry))?;
    }
    Ok(())
}

/// The cell of an entry of the row of this number.
fn cell_of(number: u32, entry: &Entry) -> Cell
    requires fixed { unsigned_abs entry.now.fixed ≤ 10000000 }
    requires per { unsigned_abs entry.now.per ≤ 10000000 }
    ensures { result ≡ record { row = number; fixed = entry.now.fixed; per = entry.now.per } }
{
    Cell {
        row: number,
        fixed: entry.fixed as i32,
        per: entry.per as i32,
    }
}
