ghost use Rattle.std.specs.Prelude.{◌≡◌, ◌∷◌, [], length};
ghost use Rattle.std.specs.Int.{from_le_bytes, w32};
ghost use Rattle.std.specs.Prelude.{slice_index};
ghost use Rattle.cmd_new.specs.NewImage.{image_above as store_above, made_image as made_store, new_image as new_store};
ghost use Rattle.disk_model.specs.Contents.{image_size};

use disk_model::IMAGE;

/// The highest term above which a store is made.
pub const HIGHEST_START: u32 = 500_000;

/// Where the selector of the version stands.
const SELECTOR: usize = 0;

/// Where its copy B begins, with the length byte.
const COPY_B: usize = 34;

/// The version of a store in which each entry has its origin.
const VERSION: u8 = 2;

/// Where copy A of the term begins, with the length byte.
const TERM: usize = 68;

/// Where copy A of the vote begins, with the length byte.
const VOTE: usize = 135;

/// The image of a new store for this node above this term.
pub fn made_image(term: u32, node: u8) -> [u8; IMAGE]
    ensures size { length result ≡ image_size }
    ensures image { result ≡ made_store term node }
{
    if term == 0 {
        return new_image();
    }
    image_above(term, node)
}

/// The image of a new store without a term.
pub fn new_image() -> [u8; IMAGE]
    ensures size { length result ≡ image_size }
    ensures image { result ≡ new_store }
{
    let mut image = [0; IMAGE];
    image[SELECTOR] = 1;
    image[COPY_B] = 1;
    image[COPY_B + 1] = VERSION;
    image
}

/// The image of a store with this term, and a vote for this node.
pub fn image_above(term: u32, node: u8) -> [u8; IMAGE]
    ensures size { length result ≡ image_size }
    ensures image { result ≡ store_above term node }
{
    let [a, b, c, d] = term.to_le_bytes();
    let mut image = new_image();
    image[TERM] = 4;
    image[TERM + 1] = a;
    image[TERM + 2] = b;
    image[TERM + 3] = c;
    image[TERM + 4] = d;
    image[VOTE] = 1;
    image[VOTE + 1] = node;
    image
}

/// The term in copy A of an image.
pub fn term_in(image: &[u8; IMAGE]) -> u32
    ensures { result ≡ from_le_bytes w32 (slice_index image.now 69 ∷ slice_index image.now 70 ∷
        slice_index image.now 71 ∷ slice_index image.now 72 ∷ []) }
{
    u32::from_le_bytes([
        image[TERM + 1],
        image[TERM + 2],
        image[TERM + 3],
        image[TERM + 4],
    ])
}

/// The vote in copy A of an image.
pub fn vote_in(image: &[u8; IMAGE]) -> u8
    ensures { result ≡ slice_index image.now 136 }
{
    image[VOTE + 1]
}
