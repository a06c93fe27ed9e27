// The limit of an image.

#[derive(Clone, Copy)]
pub struct Image;

impl Image {
    pub const LIMIT: usize = 65_536;
    // A position outside every image.
    pub const NOWHERE: u32 = 65_536;
}
