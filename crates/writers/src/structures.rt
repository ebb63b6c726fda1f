// The descriptors with numbers that vary: the bodies, the entries and the file identifiers.
ghost use Rattle.std.specs.Prelude.{◌≡◌, [], ◌∷◌, ◌+◌, ◌*◌, ◌≤◌, ◌<◌, ◌^◌, length, eqb};
ghost use Rattle.disc.specs.Choice.{pick};
ghost use Rattle.writers.specs.Layout.{identifier_size, sector, sealed, partition_body, integrity_body, entry_body, root_entry, file_entry, identifier_body, identifier_at};
ghost use Rattle.writers.specs.Inner.Pours.{Poured, Laid, sized_body, long_body};

use crate::bodies::{ENTRY, IDENTIFIER, INTEGRITY, PARTITION};
use crate::namings::identifier_size;
use crate::seals::{put, seal, seal_sector};
use disc::images::sectors_for;

// The partition descriptor's body, of a partition of so many blocks.
pub(crate) fn partition_body(size: u32) -> [u8; 496]
    ensures { result ≡ partition_body size }
{
    let mut body = PARTITION;
    put(&size.to_le_bytes(), &mut body, 176);
    body
}

// The logical volume integrity descriptor's body.
pub(crate) fn integrity_body(size: u32, files: u32) -> [u8; 118]
    requires { files ≤ 64 }
    ensures { result ≡ integrity_body size files }
{
    let mut body = INTEGRITY;
    put(&(16 + files as u64).to_le_bytes(), &mut body, 24);
    put(&size.to_le_bytes(), &mut body, 68);
    put(&files.to_le_bytes(), &mut body, 104);
    body
}

// A file entry's body with the numbers that go by the file's bytes.
fn sized_body(made: [u8; 168], size: u32) -> [u8; 168]
    ensures { result ≡ sized_body made size }
{
    let mut body = made;
    put(&(size as u64).to_le_bytes(), &mut body, 40);
    put(&sectors_for(size).to_le_bytes(), &mut body, 48);
    put(&size.to_le_bytes(), &mut body, 160);
    body
}

fn entry_body(kind: u8, permissions: u32, size: u32, unique: u32, block: u32) -> [u8; 168]
    ensures { result ≡ entry_body kind permissions size unique block }
{
    let mut body = ENTRY;
    body[11] = kind;
    put(&permissions.to_le_bytes(), &mut body, 28);
    put(&(unique as u64).to_le_bytes(), &mut body, 144);
    put(&block.to_le_bytes(), &mut body, 164);
    sized_body(body, size)
}

// The entry of the root, whose directory has so many bytes.
pub(crate) fn root_entry(size: u32, image: &mut [u8], at: usize) -> usize
    requires { at + 2048 ≤ length image.old }
    ensures { Laid (sector (root_entry size) ∷ []) at image.old image.new result }
{
    let body = entry_body(4, 0x14a5, size, 0, 8);
    seal_sector(261, 2, &body, image, at)
}

// The block that the entry of a file names: an empty one has none.
fn block_of(size: u32, block: u32) -> u32
    ensures { result ≡ pick (eqb size 0) 0 block }
{
    if size == 0 { 0 } else { block }
}

// The entry of the i-th file.
pub(crate) fn file_entry(i: u32, size: u32, block: u32, image: &mut [u8], at: usize) -> usize
    requires { (i < 64) × (at + 2048 ≤ length image.old) }
    ensures { Laid (sector (file_entry i size block) ∷ []) at image.old image.new result }
{
    let body = entry_body(5, 0x1084, size, 16 + i, block_of(size, block));
    seal_sector(261, 16 + i, &body, image, at)
}

// A file's identifier, filled up with zeros to the longest.
fn identifier_body(name: &[u8], block: u32) -> [u8; 152]
    requires { length name.now ≤ 127 }
    ensures { result ≡ long_body block name.now }
{
    let mut body = IDENTIFIER;
    body[3] = 1 + name.len() as u8;
    put(&block.to_le_bytes(), &mut body, 8);
    put(name, &mut body, 23);
    body
}

// The file identifier of the i-th file, at place `o` of the directory.
pub(crate) fn identifier(name: &[u8], i: u32, o: u32, image: &mut [u8], at: usize) -> usize
    requires { (length name.now ≤ 127) × (i < 64) × (o < 16384) × (at + identifier_size (length name.now) ≤ length image.old) }
    ensures { Poured (identifier_at o 0 (16 + i) (8 ∷ name.now)) (identifier_size (length name.now)) at image.old image.new result }
{
    let body = identifier_body(name, 16 + i);
    seal(
        257,
        8 + o / 2048,
        &body[..identifier_size(name.len()) - 16],
        image,
        at,
    )
}
