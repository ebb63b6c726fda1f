// Two counters that stay apart: a block is counted from the partition's start, a sector from the disc's. Only
// `Mount`, which says how a volume is read, turns a block into a sector.
ghost use Rattle.std.specs.Prelude.{◌≡◌};
ghost use Rattle.disc.specs.Places.{sector_of, is_mapped, mapped_start, start_for, icb_start, crossing, icb_placed, at_entry, is_checked, StandsIn, BlockStands};

#[derive(Clone, Copy)]
pub struct Block(pub u32);

// The sum of two 32-bit numbers can pass 2^32, so a sector's number has 64 bits.
#[derive(Clone, Copy)]
pub struct Sector(pub u64);

// How a volume is read: where its partition starts, the partition's number, whether descriptors are checked, and the
// partition maps that resolve references, if any.
#[repr(C)]
#[derive(Clone, Copy)]
pub struct Mount {
    // The sector where the partition starts; for a volume with maps, the file set's partition.
    pub start: u32,
    // The partition's number.
    pub partition: u16,
    // If not 0, the body of each descriptor that is parsed must have the CRC that its tag gives; otherwise the call is refused.
    pub checked: u32,
    // The number of partition maps. 0: references are compared with `partition`. More than 4 counts as 4.
    pub maps: u32,
    // For each map, the volume sequence number, the partition's number and the sector where it starts; zeros if there
    // is none.
    pub volumes: [u16; 4],
    pub numbers: [u16; 4],
    pub starts: [u32; 4],
}

// The only place where a block becomes a sector (RULES 9.3).
fn sector_of(start: u32, block: Block) -> Sector
    ensures { result.0 ≡ sector_of start block.0 }
{
    Sector(start as u64 + block.0 as u64)
}

// The sector of a block in the partition that starts at `start`.
fn crossed(start: Option<u32>, block: Block) -> Option<Sector>
    ensures { StandsIn (crossing block.0 start) result }
{
    Some(sector_of(start?, block))
}

impl Mount {
    // Whether references are resolved through maps.
    fn is_mapped(self) -> bool
        ensures { result ≡ is_mapped self }
    {
        self.maps != 0
    }

    // The start of the partition of map `reference`, if there is such a map.
    fn mapped(self, reference: u16) -> Option<u32>
        ensures { result ≡ mapped_start self reference }
    {
        let i = reference as usize;
        if self.maps as usize <= i {
            return None;
        }
        if 4 <= i {
            return None;
        }
        let starts = self.starts;
        Some(starts[i])
    }

    // The start of the partition that a descriptor's reference names: through the maps, or else only by the volume's
    // own number.
    fn start_for(self, reference: u16) -> Option<u32>
        ensures { result ≡ start_for self reference }
    {
        if self.is_mapped() {
            return self.mapped(reference);
        }
        if reference != self.partition {
            return None;
        }
        Some(self.start)
    }

    // The start of the partition that an ICB's reference names. Without maps the reference isn't looked at.
    fn icb_start(self, reference: u16) -> Option<u32>
        ensures { result ≡ icb_start self reference }
    {
        if self.is_mapped() {
            return self.mapped(reference);
        }
        Some(self.start)
    }

    // The sector of a block under a descriptor's reference. Without a reference, the block is in its file entry's
    // partition.
    pub fn placed(self, reference: Option<u16>, block: Block) -> Option<Sector>
        ensures { BlockStands self reference block.0 result }
    {
        match reference {
            None => Some(sector_of(self.start, block)),
            Some(p) => crossed(self.start_for(p), block),
        }
    }

    // The sector of the block that an ICB names.
    pub fn icb_placed(self, reference: u16, block: Block) -> Option<Sector>
        ensures { StandsIn (icb_placed self reference block.0) result }
    {
        crossed(self.icb_start(reference), block)
    }

    // The mount for the descriptors of the entry that an ICB names: what names no partition is in the entry's own.
    pub fn at_entry(self, reference: u16) -> Mount
        ensures { result ≡ at_entry self reference }
    {
        match self.icb_start(reference) {
            None => self,
            Some(start) => {
                let mut m = self;
                m.start = start;
                m
            }
        }
    }

    // Whether the bodies of descriptors are checked.
    pub fn is_checked(self) -> bool
        ensures { result ≡ is_checked self }
    {
        self.checked != 0
    }
}
