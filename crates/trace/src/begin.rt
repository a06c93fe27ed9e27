// The table that a trace starts from.
ghost use Rattle.std.specs.Prelude.{◌≡◌, ◌≤◌, length};
ghost use Rattle.reach.specs.Pins.{table};

// The marks of an image of n bytes cleared, and the positions pinned that are inside.
pub fn begin(marks: &mut [u8], n: usize, pins: &[u32])
    requires { n ≤ length marks.old }
    ensures { marks.new ≡ table n pins.now marks.old }
{
    marks::clear(marks, n);
    marks::pin(marks, n, pins);
}
