//! Images at places.
ghost use Rattle.std.specs.Prelude.{◌≡◌, ℕ, IsTrue};
ghost use Rattle.spill_file.specs.Images.{Images, LiesAt, SameBut};

use crate::place::Place;

/// What keeps images at places: the files of lanes, as the system's calls write and read them.
pub trait ImageStore {
    /// The image at each place, where it is told.
    ghost images: { Self → Images };

    /// The number of the lane whose file this store makes.
    ghost number: { Self → ℕ };

    /// The number of the lane whose file this store makes.
    fn lane(&self) -> u32
        ensures { result ≡ number self.now };

    /// Writes an image at a place, and answers whether all of it was written. Nothing else is.
    fn write(&mut self, place: Place, image: &[u8]) -> bool
        ensures written { IsTrue result → LiesAt (images self.new) place image.now }
        ensures others { SameBut place (images self.old) (images self.new) };

    /// Reads the image at a place, and answers whether there was one of this length. Else the bytes of `into` are open.
    fn read(&mut self, place: Place, into: &mut [u8]) -> bool
        ensures read { IsTrue result → LiesAt (images self.old) place into.new }
        ensures same { images self.new ≡ images self.old };

    /// Removes the lane's own file, where it made one.
    fn remove_file(&self);
}
