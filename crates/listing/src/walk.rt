// The walk: upward by position.
ghost use Rattle.std.specs.Prelude.{◌≡◌, cond, [], ◌+◌, ◌-◌, ◌^◌, ◌≤◌, ◌<◌, length, get_or};
ghost use Rattle.arrivals.specs.Arrivals.{arrivals_of};
ghost use Rattle.arrivals.specs.ClaimsIndex.{OfBytes};
ghost use Rattle.arrivals.specs.Index.{index_of};
ghost use Rattle.views.specs.Labels.{labels_of};
ghost use Rattle.views.specs.Mask.{mask_of};
ghost use Rattle.listing.specs.Lent.{cells_of, has_index, run_at, text_of};
ghost use Rattle.text.specs.Puts.{Puts};
ghost use Rattle.listing.specs.Lines.{arrival_line};
ghost use Rattle.listing.specs.Walk.{code_lines, lines_at};

use crate::chain::Indexed;
use crate::lines;
use instruction::Mode;
use marks::Mark;

// What tells the target marks: they themselves, or an index, which tells arrivals too.
#[derive(Clone, Copy)]
pub enum Table<'t> {
    Labels(&'t [u8]),
    Index(&'t [u16]),
}

// An image and its marks, with a table that is made of them.
#[derive(Clone, Copy)]
pub struct Lent<'a, 't> {
    pub mode: Mode,
    pub image: &'a [u8],
    pub marks: &'a [u8],
    pub table: Table<'t>,
    ghost small: { OfBytes image.now },
    ghost covered: { length image.now ≤ length marks.now },
    ghost told: { cells_of table ≡ cond (has_index table) (index_of mode image.now marks.now) (labels_of mode image.now marks.now) },
}

impl<'a, 't> Lent<'a, 't> {
    // With the index that the table is.
    fn indexed(&self, index: &'t [u16]) -> Indexed<'a, 't>
        requires { index.now ≡ index_of self.now.mode self.now.image.now self.now.marks.now }
        ensures { (result.mode ≡ self.now.mode) × (result.image.now ≡ self.now.image.now) × (result.marks.now ≡ self.now.marks.now) }
    {
        Indexed {
            mode: self.mode,
            image: self.image,
            marks: self.marks,
            index,
        }
    }
}

// The target mark of a position.
fn label_at(lent: &Lent, p: u32) -> u8
    requires { p < length lent.now.image.now }
    ensures { result ≡ get_or (labels_of lent.now.mode lent.now.image.now lent.now.marks.now) p 0 }
{
    match lent.table {
        Table::Labels(labels) => labels[p as usize],
        Table::Index(index) => lent.indexed(index).is_labelled(p) as u8,
    }
}

// Who arrives at a position, where the table is an index.
fn put_arrivals(lent: &Lent, out: &mut [u8], at: usize, p: u32) -> usize
    requires { (at < 2 ^ 54) × (p < length lent.now.image.now) }
    ensures puts { Puts
        (cond (has_index lent.now.table) (arrival_line p (arrivals_of lent.now.mode lent.now.image.now lent.now.marks.now p)) [])
        at out.old out.new result }
    ensures upper_bound { result ≤ at + 2 ^ 20 }
{
    match lent.table {
        Table::Labels(_) => at,
        Table::Index(index) => lines::put_arrivals(&lent.indexed(index), out, at, p),
    }
}

// The lines of a traced position.
fn put_code(lent: &Lent, out: &mut [u8], at: usize, p: u32) -> usize
    requires { (at < 2 ^ 52) × (p < length lent.now.image.now) }
    ensures puts { Puts
        (code_lines lent.now.mode lent.now.image.now lent.now.marks.now
        (labels_of lent.now.mode lent.now.image.now lent.now.marks.now) (has_index lent.now.table) p)
        at out.old out.new result }
    ensures upper_bound { result ≤ at + 2 ^ 22 }
{
    let a = lines::put_label(out, at, p, label_at(lent, p));
    let b = lines::put_overlaps(lent.image, lent.marks, out, a, p);
    let c = put_arrivals(lent, out, b, p);
    lines::put_here(lent.mode, lent.image, out, c, p)
}

// What is printed at a position, by its data run; that of a masked position is empty, and nothing is printed of it.
fn put_at(lent: &Lent, run: &[u8], out: &mut [u8], at: usize, p: u32) -> usize
    requires { (at < 2 ^ 52) × (p < length lent.now.image.now) × (run.now ≡ run_at lent.now.image.now lent.now.marks.now p) }
    ensures puts { Puts
        (lines_at lent.now.mode lent.now.image.now lent.now.marks.now (mask_of lent.now.image.now lent.now.marks.now)
        (labels_of lent.now.mode lent.now.image.now lent.now.marks.now) (has_index lent.now.table) p)
        at out.old out.new result }
    ensures upper_bound { result ≤ at + 2 ^ 22 }
{
    if Mark::is_traced(lent.marks[p as usize]) {
        return put_code(lent, out, at, p);
    }
    lines::put_data(out, at, p, run)
}

// How many positions are passed with one that has this run.
fn step_by(run: &[u8]) -> usize
    ensures { result ≡ 1 + (length run.now - 1) }
{
    run.len().max(1)
}

// No mask is lent: where the code so far ends says which bytes are code, since every instruction that begins up to p was passed.
pub fn put_walk(lent: &Lent, out: &mut [u8]) -> usize
    ensures { Puts
        (text_of lent.now.mode lent.now.image.now lent.now.marks.now (has_index lent.now.table))
        0 out.old out.new result }
{
    let n = lent.image.len();
    let mut at: usize = 0;
    let mut end: usize = 0;
    let mut p: usize = 0;
    // The run at a position says how far the next one is, so a `for` over positions would have to pass over those in between.
    while p < n {
        end = views::end_with(lent.image, lent.marks, p as u32, end);
        let run = views::unmasked_run(lent.image, lent.marks, p as u32, end);
        at = put_at(lent, run, out, at, p as u32);
        p += step_by(run);
    }
    at
}
