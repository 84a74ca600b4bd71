ghost use Rattle.std.specs.Prelude.{◌≡◌, ◌↔◌, ◌∷◌, [], true, is_ok, IfOk, IsTrue};
ghost use Rattle.cmd_io.specs.Counting.{CountsFaults};
ghost use Rattle.cmd_new.specs.Found.{HasNoVersion, IsFound, IsFoundOn};
ghost use Rattle.cmd_new.specs.NewImage.{IsAbove, IsNewImage, IsMadeAbove};
ghost use Rattle.disk_model.specs.Contents.{image_size};
ghost use Rattle.disk_model.specs.Device.{Makes};
ghost use Rattle.disk_model.specs.Device.DeviceCall.{Read};

use crate::image::{HIGHEST_START, image_above, new_image, term_in, vote_in};
use disk_model::{Disk, IMAGE};
use kv_store::Image;
use outside::Failed;

/// The key of the version.
const VERSION: u8 = 0;

/// The highest node ID of a member.
const HIGHEST_MEMBER: u8 = 125;

/// What is found on a disk.
#[derive(Clone, Copy, Debug, PartialEq, Eq)]
pub enum Found {
    /// No version: there never was a store, or it lost the block that its version stands in. Zeros have none.
    NoStore,

    /// An image that [`crate::make_stores`] writes, for this node or another.
    NewStore,

    /// A version, and another image: a member ran on it.
    UsedStore,
}

/// Finds what is on a disk, by one read. It fails only where the disk does.
pub fn find_store<D: Disk>(disk: &mut D) -> Result<Found, Failed>
    ensures found { IfOk result (λ found. IsFoundOn D.Disk disk.old found) }
    // Nothing is written.
    ensures read { Makes D.does (Read 0 image_size ∷ []) (is_ok result) disk.old disk.new }
    ensures tells { D.tells disk.new ≡ D.tells disk.old }
    ensures contents { D.tells disk.old ≡ true → D.contents disk.new ≡ D.contents disk.old }
    ensures faults { CountsFaults (D.faults disk.old) (D.faults disk.new) result }
{
    let mut image = [0; IMAGE];
    match disk.read(0, &mut image) {
        Ok(()) => Ok(found_in(&image)),
        Err(Failed) => Err(Failed),
    }
}

/// What an image is.
fn found_in(image: &[u8; IMAGE]) -> Found
    ensures { IsFound image.now result }
{
    if has_no_version(image) {
        return Found::NoStore;
    }
    if is_new(image) {
        return Found::NewStore;
    }
    Found::UsedStore
}

fn has_no_version(image: &[u8; IMAGE]) -> bool
    ensures { IsTrue result ↔ HasNoVersion image.now }
{
    match Image::value(image, VERSION) {
        Some(version) => version.is_empty(),
        None => false,
    }
}

fn is_new(image: &[u8; IMAGE]) -> bool
    ensures { IsTrue result ↔ IsNewImage image.now }
{
    are_same(image, &new_image()) || is_above(image)
}

/// Whether an image is that of a new store above a term.
fn is_above(image: &[u8; IMAGE]) -> bool
    ensures { IsTrue result ↔ IsAbove image.now }
{
    let term = term_in(image);
    let node = vote_in(image);
    if !is_made_above(term, node) {
        return false;
    }
    are_same(image, &image_above(term, node))
}

fn are_same(image: &[u8; IMAGE], other: &[u8; IMAGE]) -> bool
    ensures { IsTrue result ↔ (image.now ≡ other.now) }
{
    image == other
}

/// Whether stores are made above this term, and for this node.
fn is_made_above(term: u32, node: u8) -> bool
    ensures { IsTrue result ↔ IsMadeAbove term node }
{
    1 <= term && term <= HIGHEST_START && 1 <= node && node <= HIGHEST_MEMBER
}
