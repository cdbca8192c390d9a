// A crossfade's state.
ghost use Rattle.std.specs.Prelude.{◌≡◌, ◌+◌, ◌-◌, ◌*◌, ◌<◌, ◌≤◌, ◌↔◌, true, false, IsTrue, min, [], ◌∷◌, ◌++◌, ℕ};
ghost use Rattle.std.specs.Prelude.{List, map, slice_get, take, drop, length, IfOk};
ghost use Rattle.frame_core.specs.Slots.{Slot, slot_at, title_of, goes_on, is_inner, slot_left, slot_right};
ghost use Rattle.op_cross.specs.Crossfade.{mixed_cell, cross};
ghost use Rattle.cell_ring.specs.Rings.{has_title, inner_cells};
ghost use Rattle.op_cross.specs.States.{AllInner, Crossing, IsCrossing, StandsFor, mixed_on, mixed_side, passes, wants};
ghost use Rattle.op_cross.specs.States.{left, position_after, ready_stretch, track_room};
ghost use Rattle.op_cross.specs.Stretches.{titled_stretch};

use cell_ring::CellRing;
use frame_core::{Cell, goes_on, title_of};
use liq_base::limits::MAX_OVERLAP;
use liq_base::{Kind, Memory};
use sample_kernels::{mix, mixed_sample};
use std::alloc::Global;
use std::marker::Model;

/// The most cells that are passed on at once.
pub const MAX_STRETCH: u32 = 2048;

// How many items are mixed at once.
const BLOCK: usize = 256;

/// A crossfade, one slot at a time. It keeps what is not settled, and the items that are ready: `docs/streams.md`,
/// "Crossfade". Items are counted from 0, and the state stands at one of them, its item.
#[derive(Drop)]
pub struct CrossState {
    overlap: u32,
    cells: CellRing,
    next: CellRing,
    ready: u32,
    whole: u32,
    gap: bool,
}

impl Model for CrossState {
    ghost use Rattle.std.specs.Prelude.{◌≡◌, ◌+◌};
    ghost use Rattle.op_cross.specs.States.{Crossing, IsCrossing};

    ghost Value = { Crossing };

    ghost view = { λ s. record {
      overlap = s.overlap;
      cells = s.cells.cells;
      next = s.next.cells;
      ready = s.ready;
      whole = s.whole;
      gap = s.gap;
    } };

    ghost invariant = { λ s. IsCrossing (record {
      overlap = s.overlap;
      cells = s.cells.cells;
      next = s.next.cells;
      ready = s.ready;
      whole = s.whole;
      gap = s.gap;
    }) × (s.cells.room ≡ s.overlap + 2049) × (s.next.room ≡ s.overlap) };
}

impl CrossState {
    /// The state of a crossfade before its first slot, whose tracks overlap by at most `overlap` cells, from 1 to
    /// `MAX_OVERLAP`. It reserves all its room; no other call takes memory. The kind changes nothing, since a mono cell
    /// has 0 on its right, and so has a mix of such cells.
    pub fn new(alloc: Global, overlap: u32, _kind: Kind) -> Result<CrossState, Memory>
        requires { (0 < overlap) × (overlap ≤ MAX_OVERLAP) }
        ensures overlap { IfOk result (λ state. state.overlap ≡ overlap) }
        ensures stands { IfOk result (λ state. StandsFor state [] 0) }
    {
        let cells = CellRing::new(alloc, overlap + 1 + MAX_STRETCH)?;
        let next = CellRing::new(alloc, overlap)?;
        Ok(CrossState {
            overlap,
            cells,
            next,
            ready: 0,
            whole: 0,
            gap: false,
        })
    }

    /// Whether the item at which it stands is not settled: a slot that is still to come may change it.
    pub fn wants(&self) -> bool
        ensures wants { result ≡ wants self.now }
        ensures unsettled { (slots : List Slot) (p : ℕ) → StandsFor self.now slots p → IsTrue result
            ↔ (length (cross self.now.overlap slots) ≤ p) }
        ensures bound { (slots : List Slot) (p : ℕ) → StandsFor self.now slots p
            → 2 * p + 2 * self.now.overlap + 2 ≤ length slots → result ≡ false }
        ensures ends { result ≡ true → 0 < left self.now }
    {
        self.ready == 0 && !self.gap
    }

    /// Takes the next slot of the crossfade's source: a cell, or `None` for a gap. A track that begins behind another
    /// is gathered in `next`. A gap, a third track, or as many cells in `next` as in `cells` end this, and settle all
    /// items held before. Within one track, a cell past the overlap settles one item.
    pub fn feed(&mut self, slot: Option<Cell>)
        requires { wants self.old ≡ true }
        ensures overlap { self.new.overlap ≡ self.old.overlap }
        ensures filled { (slots : List Slot) (p : ℕ) → StandsFor self.old slots p
            → StandsFor self.new (slots ++ slot ∷ []) p }
        ensures less { left self.new < left self.old }
    {
        match slot {
            None => {
                self.whole = self.next.len();
                self.ready = self.cells.len();
                self.gap = true;
            }
            Some(cell) => {
                if self.next.len() > 0 && cell.first {
                    self.whole = self.next.len();
                    self.ready = self.cells.len();
                    self.cells.push(cell);
                } else if self.next.len() > 0 || cell.first && self.cells.len() > 0 {
                    self.next.push(cell);
                    if self.next.len() == self.cells.len() {
                        self.whole = self.next.len();
                        self.ready = self.cells.len();
                    }
                } else {
                    self.cells.push(cell);
                    if self.cells.len() > self.overlap {
                        self.ready = 1;
                    }
                }
            }
        }
    }

    /// How many further cells of the track that is going on may come until the item at which it stands is settled (no
    /// later slot changes it), which it is not yet. A track that begins behind another needs as many cells as that
    /// has held; otherwise one cell more than the overlap has to be held.
    pub fn room(&self) -> u32
        requires { wants self.now ≡ true }
        ensures { result ≡ track_room self.now }
    {
        let begun = self.next.len();
        if begun > 0 {
            self.cells.len() - begun
        } else {
            self.overlap + 1 - self.cells.len()
        }
    }

    /// Takes several slots of the crossfade's source at once: cells of this title of the track that is going on,
    /// given by their samples, and no more than settle its item.
    pub fn fill_stretch(&mut self, title: u32, lefts: &[i16], rights: &[i16])
        requires wants { wants self.old ≡ true }
        requires same { length rights.now ≡ length lefts.now }
        requires few { length lefts.now ≤ track_room self.old }
        ensures overlap { self.new.overlap ≡ self.old.overlap }
        ensures filled { (slots : List Slot) (p : ℕ) → StandsFor self.old slots p
            → StandsFor self.new (slots ++ map Some (inner_cells title lefts.now rights.now)) p }
        ensures least { (slots : List Slot) (p m : ℕ) → StandsFor self.old slots p → m < length lefts.now
            → length (cross self.old.overlap (slots ++ map Some (take m (inner_cells title lefts.now rights.now))))
            ≤ p }
        ensures less { 0 < length lefts.now → left self.new < left self.old }
    {
        if self.next.len() > 0 {
            self.next.push_inner(title, lefts, rights);
            if self.next.len() == self.cells.len() {
                self.whole = self.next.len();
                self.ready = self.cells.len();
            }
        } else {
            self.cells.push_inner(title, lefts, rights);
            if self.cells.len() > self.overlap {
                self.ready = 1;
            }
        }
    }

    /// Whether cells pass through: as many cells of a track are held back as may overlap, and nothing else, so that
    /// each cell that goes on with the track settles one item.
    pub fn passes(&self) -> bool
        ensures { result ≡ passes self.now }
    {
        self.ready == 0 && !self.gap && self.next.len() == 0 && self.cells.len() == self.overlap
    }

    /// Passes cells through: takes the next cells of the track that is going on, given by their title and samples,
    /// and writes the samples of as many settled items to `left` and `right`.
    pub fn pass(
        &mut self,
        title: u32,
        from_left: &[i16],
        from_right: &[i16],
        left: &mut [i16],
        right: &mut [i16],
    )
        requires passes { passes self.old ≡ true }
        requires from { length from_right.now ≡ length from_left.now }
        requires same { (length left.old ≡ length from_left.now) × (length right.old ≡ length from_left.now) }
        requires few { length from_left.now ≤ 2048 }
        ensures overlap { self.new.overlap ≡ self.old.overlap }
        ensures passes { passes self.new ≡ true }
        ensures stands { (slots : List Slot) (p : ℕ) → StandsFor self.old slots p
            → StandsFor self.new (slots
            ++ map Some (inner_cells title from_left.now from_right.now)) (p + length from_left.now) }
        ensures least { (slots : List Slot) (p m : ℕ) → StandsFor self.old slots p → m ≤ length from_left.now
            → length (cross self.old.overlap (slots
            ++ map Some (take m (inner_cells title from_left.now from_right.now)))) ≡ p + m }
        ensures left { (slots : List Slot) (p : ℕ) → StandsFor self.old slots p
            → left.new ≡ map slot_left (take (length left.old) (drop p (cross self.old.overlap (slots
            ++ map Some (inner_cells title from_left.now from_right.now))))) }
        ensures right { (slots : List Slot) (p : ℕ) → StandsFor self.old slots p
            → right.new ≡ map slot_right (take (length left.old) (drop p (cross self.old.overlap (slots
            ++ map Some (inner_cells title from_left.now from_right.now))))) }
    {
        self.cells.push_inner(title, from_left, from_right);
        self.cells.take_into(left, right);
    }

    /// The item at which it stands, which is settled: a cell, or `None` for a gap. Where both tracks have a cell for
    /// it, it is mixed of the two.
    pub fn offer(&self) -> Option<Cell>
        requires { wants self.now ≡ false }
        ensures item { (slots : List Slot) (p : ℕ) → StandsFor self.now slots p
            → result ≡ slot_at (cross self.now.overlap slots) p }
    {
        if self.ready == 0 {
            return None;
        }
        let cell = self.cells.front()?;
        if self.next.len() < self.ready {
            return Some(cell);
        }
        let to = self.next.front()?;
        let at = self.whole - self.next.len();
        Some(mixed_cell(cell, to, at, self.whole))
    }

    /// How many items, from its item on and at most `most`, are settled (no later slot changes them) and cells of its
    /// title, of which none but the first begins a track. All are cells of one track alone, or all are mixed of two,
    /// so that `copy` takes them at once.
    pub fn ready(&self, most: u32) -> u32
        ensures cells { result ≤ ready_stretch self.now }
        ensures within { result ≤ most }
        ensures stretch { (slots : List Slot) (p : ℕ) → StandsFor self.now slots p
            → result ≡ min most (titled_stretch (drop p (cross self.now.overlap slots))) }
    {
        let mixed = self.next.len();
        if mixed < self.ready {
            of_one_title(&self.cells, most.min(self.ready - mixed))
        } else {
            of_one_title(&self.next, most.min(self.ready))
        }
    }

    /// Writes the samples of the next settled items, as many as the slices are long, and goes on after them. None of
    /// these items but the first begins a track.
    pub fn copy(&mut self, left: &mut [i16], right: &mut [i16])
        requires same { length right.old ≡ length left.old }
        requires ready { length left.old ≤ ready_stretch self.old }
        ensures overlap { self.new.overlap ≡ self.old.overlap }
        ensures settled { (slots : List Slot) (p : ℕ) → StandsFor self.old slots p
            → p + length left.old ≤ length (cross self.old.overlap slots) }
        ensures stands { (slots : List Slot) (p : ℕ) → StandsFor self.old slots p
            → StandsFor self.new slots (p + length left.old) }
        ensures left { (slots : List Slot) (p : ℕ) → StandsFor self.old slots p
            → left.new ≡ map slot_left (take (length left.old) (drop p (cross self.old.overlap slots))) }
        ensures right { (slots : List Slot) (p : ℕ) → StandsFor self.old slots p
            → right.new ≡ map slot_right (take (length left.old) (drop p (cross self.old.overlap slots))) }
    {
        if self.next.len() < self.ready {
            self.copy_plain(left, right);
        } else {
            self.copy_mixed(left, right);
        }
    }

    // Writes the samples of the next items, as many as the slices are long, and goes on after them. They are cells of
    // one track alone, which are not faded.
    fn copy_plain(&mut self, left: &mut [i16], right: &mut [i16])
        requires same { length right.old ≡ length left.old }
        requires plain { length self.old.next < self.old.ready }
        requires ready { length left.old ≤ self.old.ready - length self.old.next }
        ensures overlap { self.new.overlap ≡ self.old.overlap }
        ensures stands { (slots : List Slot) (p : ℕ) → StandsFor self.old slots p
            → StandsFor self.new slots (p + length left.old) }
        ensures left { (slots : List Slot) (p : ℕ) → StandsFor self.old slots p
            → left.new ≡ map slot_left (take (length left.old) (drop p (cross self.old.overlap slots))) }
        ensures right { (slots : List Slot) (p : ℕ) → StandsFor self.old slots p
            → right.new ≡ map slot_right (take (length left.old) (drop p (cross self.old.overlap slots))) }
    {
        self.cells.take_into(left, right);
        self.ready -= left.len() as u32;
    }

    // Writes the samples of the next items, as many as the slices are long, and goes on after them. They are faded
    // from one track to the next, in blocks of at most 256 items, for which lists on the stack suffice.
    fn copy_mixed(&mut self, left: &mut [i16], right: &mut [i16])
        requires same { length right.old ≡ length left.old }
        requires mixed { self.old.ready ≤ length self.old.next }
        requires ready { length left.old ≤ self.old.ready }
        ensures overlap { self.new.overlap ≡ self.old.overlap }
        ensures stands { (slots : List Slot) (p : ℕ) → StandsFor self.old slots p
            → StandsFor self.new slots (p + length left.old) }
        ensures left { (slots : List Slot) (p : ℕ) → StandsFor self.old slots p
            → left.new ≡ map slot_left (take (length left.old) (drop p (cross self.old.overlap slots))) }
        ensures right { (slots : List Slot) (p : ℕ) → StandsFor self.old slots p
            → right.new ≡ map slot_right (take (length left.old) (drop p (cross self.old.overlap slots))) }
    {
        let _ = &self.ready;
        let mut done = 0;
        while done < left.len() {
            let end = done + (left.len() - done).min(BLOCK);
            self.mix_block(&mut left[done..end], &mut right[done..end]);
            done = end;
        }
    }

    // Fades the next items from one track to the next, as many as the slices are long, from 1 to 256. Takes the cells
    // of both tracks off their rings, writes the mixed samples, and goes on after them.
    fn mix_block(&mut self, left: &mut [i16], right: &mut [i16])
        requires same { length right.old ≡ length left.old }
        requires few { (0 < length left.old) × (length left.old ≤ 256) }
        requires mixed { self.old.ready ≤ length self.old.next }
        requires ready { length left.old ≤ self.old.ready }
        ensures goes { self.new ≡ mixed_on (length left.old) self.old }
        ensures left { left.new ≡ mixed_side (λ cell. cell.left) (length left.old) self.old }
        ensures right { right.new ≡ mixed_side (λ cell. cell.right) (length left.old) self.old }
    {
        let count = left.len();
        let at = self.whole - self.next.len();
        let mut from_left = [0; BLOCK];
        let mut from_right = [0; BLOCK];
        self.cells
            .take_into(&mut from_left[..count], &mut from_right[..count]);
        let mut to_left = [0; BLOCK];
        let mut to_right = [0; BLOCK];
        self.next
            .take_into(&mut to_left[..count], &mut to_right[..count]);
        mix(&from_left[..count], &to_left[..count], at, self.whole, left);
        mix(
            &from_right[..count],
            &to_right[..count],
            at,
            self.whole,
            right,
        );
        self.ready -= count as u32;
    }

    /// How many items, from its item on and at most `most`, are known to be cells of this title that begin no track.
    /// Where cells pass through (each further cell settles one item), its source goes on with `below` cells of title
    /// `below_title`, and the answer is no larger.
    pub fn rest(&self, title: u32, below: u32, below_title: u32, most: u32) -> u32
        ensures ready { (slots : List Slot) (p j : ℕ) → StandsFor self.now slots p → passes self.now ≡ false
            → j < result
            → is_inner (slot_at (cross self.now.overlap slots) (p + j)) ≡ true }
        ensures titled { (slots : List Slot) (p j : ℕ) → StandsFor self.now slots p → passes self.now ≡ false
            → j < result
            → title_of (slot_at (cross self.now.overlap slots) (p + j)) ≡ title }
        ensures plain { (slots : List Slot) (p : ℕ) → StandsFor self.now slots p → passes self.now ≡ true → 0 < result
            → AllInner self.now.cells }
        ensures held { (j : ℕ) → passes self.now ≡ true → j < result → j < length self.now.cells
            → title_of (slice_get self.now.cells j) ≡ title }
        ensures over { passes self.now ≡ true → length self.now.cells < result → below_title ≡ title }
        ensures below { passes self.now ≡ true → result ≤ below }
        ensures ahead { passes self.now ≡ false → result ≤ ready_stretch self.now }
        ensures within { result ≤ most }
        ensures crossing { IsCrossing self.now }
    {
        let _ = &self.ready;
        if self.passes() {
            return self.rest_through(title, below_title, below.min(most));
        }
        if self.wants() || !goes_on(title, self.offer()) {
            return 0;
        }
        self.ready(most)
    }

    // How many items, at most `most`, are known to be cells of this title that begin no track, where each further
    // cell settles one item and its source goes on with `most` cells of title `below_title`. The held cells come
    // first, and those of the source count only where all these have the title.
    fn rest_through(&self, title: u32, below_title: u32, most: u32) -> u32
        requires passes { passes self.now ≡ true }
        ensures within { result ≤ most }
        ensures front { 0 < result → goes_on title (slice_get self.now.cells 0) ≡ true }
        ensures held { (j : ℕ) → j < result → j < length self.now.cells
            → goes_on title (slice_get self.now.cells j) ≡ true }
        ensures over { length self.now.cells < result → below_title ≡ title }
    {
        let held = self.cells.inner(title, 0, most.min(self.overlap));
        if held == self.overlap && below_title == title {
            most
        } else {
            held
        }
    }

    /// Goes on by one instant. A gap at its item is over then. A settled cell goes if `gave` says that it was handed
    /// on, and otherwise it stays for the next instant.
    pub fn advance(&mut self, gave: bool)
        requires { wants self.old ≡ false }
        ensures overlap { self.new.overlap ≡ self.old.overlap }
        ensures stretch { gave ≡ true → ready_stretch self.old ≤ ready_stretch self.new + 1 }
        ensures stands { (slots : List Slot) (p : ℕ) → StandsFor self.old slots p
            → StandsFor self.new slots (position_after gave (slot_at (cross self.old.overlap slots) p) p) }
    {
        if self.ready == 0 {
            self.gap = false;
        } else if gave {
            if self.next.len() == self.ready {
                self.next.pop();
            }
            self.cells.pop();
            self.ready -= 1;
        }
    }
}

// How many cells of a ring (a queue of cells), from the front one on and at most `most`, have the title of the front
// one, up to the first that has not.
fn of_one_title(ring: &CellRing, most: u32) -> u32
    ensures within { result ≤ most }
    ensures some { 0 < most → 0 < result }
    ensures titled { (j : ℕ) → 0 < j → j < result
        → has_title (title_of (slice_get ring.now.cells 0)) (slice_get ring.now.cells j) ≡ true }
    ensures ends { result < most → has_title (title_of (slice_get ring.now.cells 0)) (slice_get ring.now.cells result)
        ≡ false }
{
    if most == 0 {
        return 0;
    }
    1 + ring.titled(title_of(ring.front()), 1, most - 1)
}

// Cell `at` of a fade over `whole` cells, mixed of `from`, the cell of the track that ends, and `to`, that of the
// next one. It has the next track's title, and the first cell of the fade alone begins a track.
fn mixed_cell(from: Cell, to: Cell, at: u32, whole: u32) -> Cell
    requires { at < whole }
    ensures { result ≡ mixed_cell from to at whole }
{
    Cell {
        left: mixed_sample(from.left, to.left, at, whole),
        right: mixed_sample(from.right, to.right, at, whole),
        first: at == 0,
        title: to.title,
    }
}
