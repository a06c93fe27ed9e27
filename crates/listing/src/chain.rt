// Those that name a position, one after another by the index, beside those from which control goes on to it.
ghost use Rattle.std.specs.Prelude.{◌≡◌, ◌+◌, ◌≤◌, ◌<◌, length};
ghost use Rattle.views.specs.Labels.{labelled};
ghost use Rattle.arrivals.specs.ClaimsIndex.{OfBytes};
ghost use Rattle.arrivals.specs.Index.{index_of, next_namer, next_held, next_fall};

use instruction::Mode;
use marks::Mark;
use targets::Image;

// An image and its marks, with the index that is made of them.
#[derive(Clone, Copy)]
pub struct Indexed<'a, 't> {
    pub mode: Mode,
    pub image: &'a [u8],
    pub marks: &'a [u8],
    pub index: &'t [u16],
    ghost small: { OfBytes image.now },
    ghost made: { index.now ≡ index_of mode image.now marks.now },
}

impl Indexed<'_, '_> {
    // Whether p has a target mark: one that names it is not under the exception.
    pub fn is_labelled(&self, p: u32) -> bool
        requires { p < length self.now.image.now }
        ensures { result ≡ labelled self.now.mode self.now.image.now self.now.marks.now p }
    {
        let n = self.image.len() as u32;
        let mut q = arrivals::first(self.index, p);
        // The index says which is the next, so there is no range to go through.
        while q < n {
            if !marks::is_exempt(self.image, self.marks, q) {
                return true;
            }
            q = arrivals::next(self.index, q);
        }
        false
    }

    // The lowest arrival from c on that names p, where c is the lowest from there that does: one with mark 3 had no targets.
    pub fn held_from(&self, p: u32, c: u32) -> u32
        requires { c ≡ next_namer self.now.mode self.now.image.now self.now.marks.now p c }
        ensures { result ≡ next_held self.now.mode self.now.image.now self.now.marks.now p c }
    {
        let n = self.image.len() as u32;
        let mut q = c;
        // The index says which is the next, so there is no range to go through.
        while q < n {
            if self.marks[q as usize] != Mark::FLASH {
                return q;
            }
            q = arrivals::next(self.index, q);
        }
        // The definition `next_held` answers this number where there is none.
        Image::NOWHERE
    }

    // The lowest past q, where c is the lowest from q on.
    pub fn held_past(&self, p: u32, c: u32, q: u32) -> u32
        requires { (q < length self.now.image.now) × (c ≡ next_held self.now.mode self.now.image.now self.now.marks.now p q) }
        ensures { result ≡ next_held self.now.mode self.now.image.now self.now.marks.now p (q + 1) }
    {
        if c != q {
            return c;
        }
        self.held_from(p, arrivals::next(self.index, q))
    }

    // The same of those from which control goes on to p.
    pub fn fall_past(&self, p: u32, f: u32, q: u32) -> u32
        requires { (q < length self.now.image.now) × (f ≡ next_fall self.now.mode self.now.image.now self.now.marks.now p q) }
        ensures { result ≡ next_fall self.now.mode self.now.image.now self.now.marks.now p (q + 1) }
    {
        if f != q {
            return f;
        }
        arrivals::next_fall(self.mode, self.image, self.marks, p, q + 1)
    }
}
