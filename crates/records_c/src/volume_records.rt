// Volume structure: the anchor, the descriptors of a volume descriptor sequence, and the file set descriptor.
//
// Each begins with a tag that has its id (2, 1, 5, 6, 256). Identifiers are d-string fields as recorded; one that can't
// be decoded is refused.
ghost use Rattle.std.specs.Prelude.{◌≡◌, false};
ghost use Rattle.descriptors.specs.Answers.{anchor_answer, primary_answer, partition_answer, logical_answer, file_set_answer};
ghost use Rattle.descriptors.specs.FileSets.{read_file_set};
ghost use Rattle.descriptors.specs.Volumes.{read_anchor, read_primary, read_partition, read_logical};

use crate::answers::told;
use descriptors::anchors::AnchorVolumeDescriptorPointer;
use descriptors::file_sets::FileSetDescriptor;
use descriptors::logicals::LogicalVolumeDescriptor;
use descriptors::partitions::PartitionDescriptor;
use descriptors::primaries::PrimaryVolumeDescriptor;
use disc::answers::DONE;
use records::allocations::{ExtentAd, no_long};
use tags::no_tag;

#[repr(C)]
#[derive(Clone, Copy)]
pub struct AnchorAnswer {
    pub answer: u64,
    pub value: AnchorVolumeDescriptorPointer,
}

#[repr(C)]
#[derive(Clone, Copy)]
pub struct PartitionAnswer {
    pub answer: u64,
    pub value: PartitionDescriptor,
}

#[repr(C)]
#[derive(Clone, Copy)]
pub struct PrimaryAnswer {
    pub answer: u64,
    pub value: PrimaryVolumeDescriptor,
}

#[repr(C)]
#[derive(Clone, Copy)]
pub struct LogicalAnswer {
    pub answer: u64,
    pub value: LogicalVolumeDescriptor,
}

#[repr(C)]
#[derive(Clone, Copy)]
pub struct FileSetAnswer {
    pub answer: u64,
    pub value: FileSetDescriptor,
}

#[unsafe(no_mangle)]
pub extern "C" fn records_parse_anchor(bytes: &[u8]) -> AnchorAnswer
    ensures { record { number = result.answer; value = result.value } ≡ anchor_answer (read_anchor false bytes.now) }
{
    let nowhere = ExtentAd {
        length: 0,
        location: 0,
    };
    let (answer, value) = told(
        AnchorVolumeDescriptorPointer::parse(false, bytes),
        AnchorVolumeDescriptorPointer {
            tag: no_tag(),
            main_volume_descriptor_sequence: nowhere,
            reserve_volume_descriptor_sequence: nowhere,
        },
    );
    AnchorAnswer { answer, value }
}

#[unsafe(no_mangle)]
pub extern "C" fn records_parse_primary_volume(bytes: &[u8]) -> PrimaryAnswer
    ensures { record { number = result.answer; value = result.value } ≡ primary_answer (read_primary false bytes.now) }
{
    let (answer, value) = told(
        PrimaryVolumeDescriptor::parse(false, bytes),
        PrimaryVolumeDescriptor {
            tag: no_tag(),
            volume_descriptor_sequence_number: 0,
            primary_volume_descriptor_number: 0,
            volume_identifier: [0; 32],
        },
    );
    PrimaryAnswer { answer, value }
}

#[unsafe(no_mangle)]
pub extern "C" fn records_parse_partition(bytes: &[u8]) -> PartitionAnswer
    ensures { record { number = result.answer; value = result.value } ≡ partition_answer (read_partition false bytes.now) }
{
    let (answer, value) = told(
        PartitionDescriptor::parse(false, bytes),
        PartitionDescriptor {
            tag: no_tag(),
            volume_descriptor_sequence_number: 0,
            partition_flags: 0,
            partition_number: 0,
            partition_starting_location: 0,
            partition_length: 0,
        },
    );
    PartitionAnswer { answer, value }
}

#[unsafe(no_mangle)]
pub extern "C" fn records_parse_logical_volume(bytes: &[u8]) -> LogicalAnswer
    ensures { record { number = result.answer; value = result.value } ≡ logical_answer (read_logical false bytes.now) }
{
    // Not by `told`, which is handed the zeros: there are many, and they are made only where they are told.
    match LogicalVolumeDescriptor::parse(false, bytes) {
        Ok(value) => LogicalAnswer {
            answer: DONE,
            value,
        },
        Err(why) => LogicalAnswer {
            answer: why.number(),
            value: LogicalVolumeDescriptor {
                tag: no_tag(),
                volume_descriptor_sequence_number: 0,
                logical_volume_identifier: [0; 128],
                logical_block_size: 0,
                file_set_descriptor_location: no_long(),
                map_table_length: 0,
                number_of_partition_maps: 0,
                partition_maps: [0; 24],
            },
        },
    }
}

#[unsafe(no_mangle)]
pub extern "C" fn records_parse_file_set(bytes: &[u8]) -> FileSetAnswer
    ensures { record { number = result.answer; value = result.value } ≡ file_set_answer (read_file_set false bytes.now) }
{
    let (answer, value) = told(
        FileSetDescriptor::parse(false, bytes),
        FileSetDescriptor {
            tag: no_tag(),
            root_directory_icb: no_long(),
        },
    );
    FileSetAnswer { answer, value }
}
