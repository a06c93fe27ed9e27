// The data run: a part of the image with no code.
// Ported from `byte_range` and `read_chunk` of src/disasm.rs of wtetzner/waterbear, and changed: the run is a part of the image, handed back.
ghost use Rattle.std.specs.Prelude.{◌≡◌, ◌+◌, ◌<◌, ◌≤◌, length};
ghost use Rattle.views.specs.DataRun.{data_run, is_data, run_length};

#[derive(Clone, Copy)]
pub struct DataRun;

impl DataRun {
    // The longest run.
    pub const LENGTH: usize = 16;
}

// Whether a byte is inside the image and not masked; a missing mask byte counts as masked.
fn is_data(image: &[u8], mask: &[u8], b: usize) -> bool
    ensures { result ≡ is_data image.now mask.now b }
{
    b < image.len() && b < mask.len() && mask[b] == 0
}

// How many bytes the run at this position has.
fn run_length(image: &[u8], mask: &[u8], at: usize) -> usize
    requires { at < length image.now }
    ensures { (result ≡ run_length image.now mask.now at) × (at + result ≤ length image.now) }
{
    (at..at + DataRun::LENGTH)
        .take_while(|b| is_data(image, mask, *b))
        .count()
}

// Up to 16 bytes from p on, which end before a masked byte; a part of the image.
pub fn data_run<'a>(image: &'a [u8], mask: &[u8], p: u32) -> &'a [u8]
    ensures { result.now ≡ data_run image.now mask.now p }
{
    let at = p as usize;
    if image.len() <= at {
        return &image[0..0];
    }
    let e = at + run_length(image, mask, at);
    &image[at..e]
}
