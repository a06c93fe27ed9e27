// A text written into a room.
ghost use Rattle.std.specs.Prelude.{◌≡◌};
ghost use Rattle.std.proofs.lemmas.List.Edits.{sets};

// Writes a text into a room from a place on; what falls past its end is not written. Byte by byte, since `copy_from_slice` is made into a
// call of `memmove` here, and the archive is to need no more of the C library than memcpy and memset.
pub fn copy(text: &[u8], room: &mut [u8], at: usize)
    ensures { room.new ≡ sets room.old at text.now }
{
    if at < room.len() {
        let n = text.len().min(room.len() - at);
        for i in 0..n {
            room[at + i] = text[i];
        }
    }
}
