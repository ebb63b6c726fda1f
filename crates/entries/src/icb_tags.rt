// The ICB tag: how the blocks of a file's entry are used.
ghost use Rattle.std.specs.Prelude.{◌≡◌, ◌≤◌, length};
ghost use Rattle.entries.specs.IcbTags.{icb_tag_of, read_icb_tag};

use disc::refusals::Refusal;
use records::allocations::LbAddr;
use records::bytes::{byte_at, le16, le32};

#[repr(C)]
#[derive(Clone, Copy)]
pub struct IcbTag {
    pub prior_recorded_entries: u32,
    pub strategy_type: u16,
    pub strategy_parameter: u16,
    pub max_entries: u16,
    // 4: a directory.
    pub file_type: u8,
    pub parent_icb: LbAddr,
    pub flags: u16,
}

// The ICB tag at `i`.
pub(crate) fn icb_tag_at(s: &[u8], i: usize) -> IcbTag
    requires { i ≤ length s.now }
    ensures { result ≡ icb_tag_of s.now i }
{
    IcbTag {
        prior_recorded_entries: le32(s, i),
        strategy_type: le16(s, i + 4),
        strategy_parameter: le16(s, i + 6),
        max_entries: le16(s, i + 8),
        file_type: byte_at(s, i + 11),
        parent_icb: LbAddr {
            block: le32(s, i + 12),
            partition_ref: le16(s, i + 16),
        },
        flags: le16(s, i + 18),
    }
}

impl IcbTag {
    pub fn parse(s: &[u8]) -> Result<IcbTag, Refusal>
        ensures { result ≡ read_icb_tag s.now }
    {
        if s.len() < 20 {
            return Err(Refusal::Malformed);
        }
        Ok(icb_tag_at(s, 0))
    }
}
