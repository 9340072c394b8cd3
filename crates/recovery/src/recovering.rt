// A card found again after a power cut.
ghost use Rattle.recovery.specs.Recovers.{Recovered};

use crate::loading::{LoadError, load};
use catalogue::Catalogue;
use disk::Disk;
use journal::Place;

// Restarts the disk and loads its card into the catalogue, whatever was in it.
pub fn recover<D: Disk>(disk: &mut D, catalogue: &mut Catalogue) -> Result<Place, LoadError>
    ensures { Recovered (D.Disk.means disk.old) catalogue.old result (D.Disk.means disk.new) catalogue.new }
{
    disk.restart();
    load(disk, catalogue)
}
