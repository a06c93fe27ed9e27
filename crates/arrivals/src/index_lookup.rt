// What is asked of an index, whoever made it.
ghost use Rattle.std.specs.Prelude.{◌≡◌, get_or};
ghost use Rattle.arrivals.specs.Index.{cell_says, first_in, next_in};

use targets::Image;

fn cell(index: &[u16], at: usize) -> u32
    ensures { result ≡ cell_says (get_or index.now at 65535) }
{
    match index.get(at) {
        Some(v) if *v < 65_535 => u32::from(*v),
        _ => Image::NOWHERE,
    }
}

// The lowest that names p.
pub fn first(index: &[u16], p: u32) -> u32
    ensures { result ≡ first_in index.now p }
{
    cell(index, p as usize)
}

// The next after q that names what q names.
pub fn next(index: &[u16], q: u32) -> u32
    ensures { result ≡ next_in index.now q }
{
    cell(index, index.len() / 2 + q as usize)
}
