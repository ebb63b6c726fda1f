// The file set descriptor: where the root directory is.
ghost use Rattle.std.specs.Prelude.{◌≡◌};
ghost use Rattle.disc.specs.Replies.{returned};
ghost use Rattle.descriptors.specs.FileSets.{read_file_set};

use disc::refusals::Refusal;
use records::allocations::{LongAd, long_at};
use tags::DescriptorTag;
use tags::heads::read_head;

// ECMA-167 4/14.1.
const ID: u16 = 256;

const SIZE: usize = 416;

#[repr(C)]
#[derive(Clone, Copy)]
pub struct FileSetDescriptor {
    pub tag: DescriptorTag,
    pub root_directory_icb: LongAd,
}

impl FileSetDescriptor {
    pub fn parse(check: bool, s: &[u8]) -> Result<FileSetDescriptor, Refusal>
        ensures { result ≡ returned (read_file_set check s.now) }
    {
        let t = read_head(check, s, ID, SIZE)?;
        Ok(FileSetDescriptor {
            tag: t,
            root_directory_icb: long_at(s, 400),
        })
    }
}
