// Behind the file entry's sector: the file itself, or the front of its chain.
ghost use Rattle.std.specs.Prelude.{◌≡◌, ◌+◌, ◌≤◌, ◌<◌, ◌^◌, length};
ghost use Rattle.disc.specs.Places.{is_checked};
ghost use Rattle.entries.specs.FileEntries.{read_entry};
ghost use Rattle.drives.specs.FileFeeds.{entry_feed};
ghost use Rattle.drives.specs.Inner.Bodies.{Lands};
ghost use Rattle.drives.specs.Inner.Arrivals.{entry_behind, Arrives};
ghost use Rattle.drives.specs.Inner.Entries.{located_in, of_entry, chain_of, longer_by, Embeds};

use crate::arrivals::put;
use crate::readings::Reading;
use crate::scans::{Scan, begin, take_bytes};
use crate::turns::{accept, over};
use disc::answers::{DONE, NO_ROOM};
use entries::file_entries::FileEntry;
use files::resolves::{EMBEDDED, MOST_CONTINUATIONS};

// Its descriptors are of this kind, and so many bytes are missing.
fn of_entry(r: Reading, kind: u8, missing: u64, s: Scan) -> Reading
    ensures { result ≡ of_entry r kind missing s }
{
    let mut x = r;
    x.kind = kind;
    x.hops = MOST_CONTINUATIONS;
    x.missing = missing;
    x.scan = s;
    x
}

// n bytes have reached the output.
fn longer_by(r: Reading, n: usize) -> Reading
    requires { r.length + n < 2 ^ 64 }
    ensures { result ≡ longer_by r n }
{
    let mut x = r;
    x.length = r.length + n;
    x
}

// The file stands in the entry itself: these bytes.
fn take_embedded(r: Reading, bytes: &[u8], out: &mut [u8]) -> Reading
    ensures { Embeds r bytes.now out.old result out.new }
{
    let k = put(bytes, out, r.length);
    let x = longer_by(r, k);
    if k < bytes.len() {
        return over(x, NO_ROOM);
    }
    over(x, DONE)
}

// The area that stands in a file's entry: the front of its chain. So many bytes of the file are missing.
fn take_area(r: Reading, kind: u8, missing: u64, area: &[u8], row: &mut [[u32; 4]]) -> Reading
    ensures { Lands row.old (chain_of r kind missing area.now) r row.new result }
{
    let listed = take_bytes(kind, begin(0), area, row);
    let x = of_entry(r, kind, missing, listed);
    accept(x, row)
}

// The entry of a file, whose area lies within its sector.
fn take_file(
    r: Reading,
    e: FileEntry,
    sector: &[u8],
    row: &mut [[u32; 4]],
    out: &mut [u8],
) -> Reading
    requires { e.area_at + e.area_length ≤ length sector.now }
    ensures { Arrives (entry_feed r.mount (located_in r e sector.now)) r out.old row.old row.new result out.new }
{
    let at = e.area_at;
    if e.kind == EMBEDDED {
        let n = (e.area_length as u64).min(e.information_length) as usize;
        let end = at + n;
        return take_embedded(r, &sector[at..end], out);
    }
    let end = at + e.area_length;
    take_area(r, e.kind, e.information_length, &sector[at..end], row)
}

// The entry's sector.
pub(crate) fn take_entry(r: Reading, sector: &[u8], row: &mut [[u32; 4]], out: &mut [u8]) -> Reading
    ensures { Arrives (entry_behind r (read_entry (is_checked r.mount) sector.now) sector.now) r out.old row.old row.new result out.new }
{
    let mount = r.mount;
    match FileEntry::parse(mount.is_checked(), sector) {
        Err(why) => over(r, why.number()),
        Ok(e) => take_file(r, e, sector, row, out),
    }
}
