// Bytes that reach the output as their sector arrives.
ghost use Rattle.std.specs.Prelude.{◌≡◌, ◌+◌, ◌-◌, ◌<◌, ◌≤◌, ◌^◌, min, length, take};
ghost use Rattle.drives.specs.Readings.{put_at};
ghost use Rattle.drives.specs.Inner.Arrivals.{extent_behind, Arrives, filled_by, Nexts};

use crate::phases::IN_EXTENT;
use crate::readings::Reading;
use crate::turns::{find_extent, over};
use disc::answers::{DONE, NO_ROOM};
use disc::moves::copy;

// Puts bytes behind those that were filled, as many as there is room for: how many that is.
pub(crate) fn put(bytes: &[u8], out: &mut [u8], filled: usize) -> usize
    ensures value { (result ≡ min (length bytes.now) (length out.old - filled)) × (filled + result < 2 ^ 64) }
    ensures out_after { out.new ≡ put_at filled (take (length out.old - filled) bytes.now) out.old }
{
    if out.len() <= filled {
        return 0;
    }
    let room = out.len() - filled;
    copy(bytes, &mut out[filled..]);
    bytes.len().min(room)
}

// n bytes have reached the output, and that many fewer are missing.
pub(crate) fn filled_by(r: Reading, n: usize) -> Reading
    requires { (r.length + n < 2 ^ 64) × (n ≤ r.missing) }
    ensures { result ≡ filled_by r n }
{
    let mut x = r;
    x.length = r.length + n;
    x.missing = r.missing - n as u64;
    x
}

// Behind the bytes of a sector of an extent: the end, the next extent, or the next sector. r is the state before them and x behind them.
fn next_sector(r: Reading, x: Reading, here: u64, row: &[[u32; 4]]) -> Reading
    requires { (r.at + r.left < 0x1000_0000_0000) × (here ≡ min r.size 2048) × (x ≡ filled_by r (min r.missing here)) }
    ensures { Nexts r row.now here x result }
{
    if r.missing <= here {
        return over(x, DONE);
    }
    if r.left == 0 {
        return find_extent(x, r.next, row);
    }
    let mut y = x;
    y.phase = IN_EXTENT;
    y.at = r.at + 1;
    y.left = r.left - 1;
    y.size = r.size - here as u32;
    y.answer = DONE;
    y
}

// A sector of an extent.
pub(crate) fn take_extent(r: Reading, sector: &[u8], row: &[[u32; 4]], out: &mut [u8]) -> Reading
    requires { (length sector.now ≡ 2048) × (r.at + r.left < 0x1000_0000_0000) }
    ensures { Arrives (extent_behind r row.now sector.now) r out.old row.now row.now result out.new }
{
    let here = (r.size as u64).min(2048);
    let n = r.missing.min(here) as usize;
    let k = put(&sector[0..n], out, r.length);
    let x = filled_by(r, k);
    if k < n {
        return over(x, NO_ROOM);
    }
    next_sector(r, x, here, row)
}
